//! Whole modules, into a sink or as a text.
ghost use Rattle.std.specs.Prelude.{◌≡◌, IfOk, OnOk, OnErr};
ghost use Rattle.ir_base.specs.Outside.{Added, Rose};
ghost use Rattle.ir_printer.specs.Gathered.Told.{AddedFront};
ghost use Rattle.module_arena.specs.View.{module_of};
ghost use Rattle.canonical.specs.Canonical.{canon};

use crate::gathered::Gathered;
use crate::growing::GrowingText;
use crate::module::put_module;
use ir_base::{Failed, Sink, Text};
use module_arena::Checked;
use std::alloc::{AllocError, Global};

/// Writes the canonical text of a module, in pieces of some thousands of bytes. It takes no memory.
///
/// Failed where a write failed, which raised the sink's count of faults: then the sink has taken a front of the text.
pub fn print<S: Sink>(checked: &Checked, sink: &mut S) -> Result<(), Failed>
    ensures ok { OnOk result (Added (S.taken sink.old) (S.taken sink.new) (canon (module_of checked.now))) }
    ensures front { AddedFront (S.taken sink.old) (S.taken sink.new) (canon (module_of checked.now)) }
    ensures cause { OnErr result (Rose (S.faults sink.old) (S.faults sink.new)) }
    ensures fine { OnOk result (S.faults sink.new ≡ S.faults sink.old) }
{
    let mut out = Gathered::new();
    put_module(&mut out, sink, checked.arena());
    out.finish(sink)
}

/// The canonical text of a module. It is refused for want of memory alone.
pub fn print_text(alloc: Global, checked: &Checked) -> Result<Text, AllocError>
    ensures { IfOk result (λ text. text ≡ canon (module_of checked.now)) }
{
    let mut sink = GrowingText::new(alloc);
    match print(checked, &mut sink) {
        Ok(()) => Ok(sink.text),
        Err(Failed) => Err(AllocError),
    }
}
