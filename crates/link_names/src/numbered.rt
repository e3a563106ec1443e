//! Names with a number behind them.
ghost use Rattle.std.specs.Prelude.{◌≡◌, ◌<◌, IfOk};
ghost use Rattle.ir_base.specs.Name.{IsName};
ghost use Rattle.link_rules.specs.Rename.{base_of, dotted};

use ir_base::{Name, Text};
use itoa::Buffer;
use std::alloc::{AllocError, Global};

/// A text that is a name.
fn whole_name(text: Text) -> Name
    requires { IsName text }
    ensures { result ≡ text }
{
    match Name::from_text(text) {
        Ok(name) => name,
        Err(_) => unreachable!(),
    }
}

/// The name, a dot, and the number in decimal.
pub(crate) fn dotted(alloc: Global, base: &Name, number: u64) -> Result<Name, AllocError>
    requires { 0 < number }
    ensures { IfOk result (λ name. name ≡ dotted base.now number) }
{
    let mut text = base.text().copy(alloc)?;
    text.push(b'.')?;
    let mut buffer = Buffer::new();
    text.extend(buffer.format(number).as_bytes())?;
    Ok(whole_name(text))
}

/// The name behind which a number may stand: an equal one, but that no name of an intrinsic comes of it.
pub(crate) fn base_of(alloc: Global, name: &Name) -> Result<Name, AllocError>
    ensures { IfOk result (λ base. base ≡ base_of name.now) }
{
    if name.text().bytes() == b"llvm".as_slice() {
        let text = Text::from_slice(alloc, b"llvm_")?;
        Ok(whole_name(text))
    } else {
        name.copy(alloc)
    }
}
