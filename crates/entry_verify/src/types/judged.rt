//! What is told where a rule does not hold.
ghost use Rattle.std.specs.Prelude.{◌≡◌};
ghost use Rattle.module_arena.specs.EntityView.{entity_view};
ghost use Rattle.module_arena.specs.Valid as valid;
ghost use Rattle.entry_verify.specs.Types.Judged.{Judged, asks, failed_in};

use crate::types::VerifyFault;
use ir_base::Name;
use module_arena::Entity;
use std::alloc::Global;

/// What a rule asks of an entity: its number, and whether it holds.
///
/// ```
/// judge_module(&[asked(1, true), asked(2, true)]) // Ok(())
/// judge_module(&[asked(1, true), asked(2, false)]) // a fault: rule 2 does not hold of the module
/// ```
#[derive(Clone, Copy)]
pub struct Check {
    pub rule: u8,
    pub passes: bool,
}

/// The rule of that number, and whether it holds.
pub fn asked(rule: u8, passes: bool) -> Check
    ensures { result ≡ record { rule = rule; passes = passes } }
{
    Check { rule, passes }
}

/// The first of these rules that does not hold.
fn failed_in(checks: &[Check]) -> Option<u8>
    ensures { result ≡ failed_in checks.now }
{
    checks
        .iter()
        .find(|check| !check.passes)
        .map(|check| check.rule)
}

/// What these rules say of the module itself.
pub fn judge_module(checks: &[Check]) -> Result<(), VerifyFault>
    ensures { Judged (asks valid.TheModule checks.now) result }
{
    match failed_in(checks) {
        Some(rule) => Err(VerifyFault::Invalid {
            rule,
            entity: Entity::Module,
        }),
        None => Ok(()),
    }
}

/// What these rules say of the variable, alias or function of that name.
pub fn judge_global(alloc: Global, name: &Name, checks: &[Check]) -> Result<(), VerifyFault>
    ensures { Judged (asks (valid.Global name.now) checks.now) result }
{
    match failed_in(checks) {
        Some(rule) => {
            let own = name.copy(alloc)?;
            Err(VerifyFault::Invalid {
                rule,
                entity: Entity::Global(own),
            })
        }
        None => Ok(()),
    }
}

/// What these rules say of an instruction or the end of a block, by its number in the function of that name.
pub fn judge_instruction(
    alloc: Global,
    number: u64,
    function: &Name,
    checks: &[Check],
) -> Result<(), VerifyFault>
    ensures { Judged (asks (valid.InstructionOf number function.now) checks.now) result }
{
    match failed_in(checks) {
        Some(rule) => {
            let own = function.copy(alloc)?;
            Err(VerifyFault::Invalid {
                rule,
                entity: Entity::Instruction(number, own),
            })
        }
        None => Ok(()),
    }
}
