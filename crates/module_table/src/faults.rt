//! Why a module is refused, as a line.

use entry_verify::types::VerifyFault;
use ir_base::Name;
use module_arena::{Entity, LocalName};
use name_rules::{spell_global, spell_struct};
use std::io;
use std::io::Write;

/// Prints the name of a variable, an alias or a function.
fn print_global(rt: &HostRuntime, name: &Name) -> io::Result<()> {
    let spelled = spell_global(rt.alloc(), name.text().bytes())?;
    rt.stdout().write_all(spelled.bytes())
}

/// Prints the name or the number of a block.
fn print_block(rt: &HostRuntime, name: &LocalName) -> io::Result<()> {
    match name {
        LocalName::Named(name) => {
            let spelled = spell_struct(rt.alloc(), name.text().bytes())?;
            rt.stdout().write_all(spelled.bytes())
        }
        LocalName::Numbered(number) => print!(rt; "%{number}"),
    }
}

/// Prints what is at fault: `module`, `@x`, `%b of @f` or `instruction k of @f`.
fn print_entity(rt: &HostRuntime, entity: &Entity) -> io::Result<()> {
    match entity {
        Entity::Module => print!(rt; "module"),
        Entity::Global(name) => print_global(rt, name),
        Entity::Block(name, function) => {
            print_block(rt, name)?;
            print!(rt; " of ")?;
            print_global(rt, function)
        }
        Entity::Instruction(number, function) => {
            print!(rt; "instruction {number} of ")?;
            print_global(rt, function)
        }
    }
}

/// Prints why a module is refused.
pub(crate) fn print_fault(rt: &HostRuntime, fault: &VerifyFault) -> io::Result<()> {
    match fault {
        VerifyFault::FunctionTooLarge { function, size } => {
            print!(rt; "function too large: ")?;
            print_global(rt, function)?;
            println!(rt; ", {size}")
        }
        VerifyFault::Invalid { rule, entity } => {
            print!(rt; "invalid V{rule} at ")?;
            print_entity(rt, entity)?;
            println!(rt; "")
        }
        VerifyFault::Memory => println!(rt; "out of memory"),
    }
}
