//! Inputs that are bitcode: which are accepted, and how the others are refused.
ghost use Rattle.std.specs.Prelude.{◌≡◌, ◌⊎◌, IfOk, IfErr};
ghost use Rattle.module_arena.specs.Module.{Module};
ghost use Rattle.module_arena.specs.View.{module_of};
ghost use Rattle.record_table.specs.Records.{Spells};
ghost use Rattle.tool_cli.specs.Judged.{bitcode_told, IsShort, IsBitcodeOf, IsBitcodeRefused};
ghost use Rattle.tool_cli.specs.Told.{IsOfTexts};

use crate::parts::verdict_told;
use bitcode_read::{BitcodeFault, read};
use ir_base::Text;
use module_arena::Checked;
use path_verify::verify;
use std::alloc::Global;
use tool_output::ends::Ended;

// The refusal of bitcode, told with the name of its input.
fn bitcode_told(alloc: Global, name: &Text, fault: BitcodeFault) -> Ended
    ensures told { (result ≡ bitcode_told name.now fault) ⊎ (result ≡ Ended.Memory) }
    ensures of_texts { IsOfTexts result }
{
    let Ok(input) = Text::from_slice(alloc, name.bytes()) else {
        return Ended::Memory;
    };
    match fault {
        BitcodeFault::Bit(fault) => Ended::BitFault { input, fault },
        BitcodeFault::ForeignProducer => Ended::ForeignProducer(input),
        BitcodeFault::BadVersion(version) => Ended::BadVersion { input, version },
        BitcodeFault::UnknownRecord { block, code } => Ended::UnknownRecord { input, block, code },
        BitcodeFault::BadRecord { block, index, rule } => Ended::BadRecord {
            input,
            block,
            index,
            rule,
        },
        BitcodeFault::Memory => Ended::Memory,
    }
}

/// The module that the bytes of the input of this name spell, where they spell one that is valid.
pub(crate) fn accepted_bitcode(alloc: Global, name: &Text, bytes: &[u8]) -> Result<Checked, Ended>
    requires { IsShort bytes.now }
    ensures module { IfOk result (λ checked. IsBitcodeOf bytes.now (module_of checked)) }
    // Bytes spell no other module.
    ensures one { IfOk result (λ checked. (m : Module) → Spells bytes.now m → m ≡ module_of checked) }
    ensures refused { IfErr result (λ ended. IsBitcodeRefused name.now bytes.now ended ⊎ (ended ≡ Ended.Memory)) }
    ensures of_texts { IfErr result IsOfTexts }
{
    let arena = match read(alloc, bytes) {
        Ok(arena) => arena,
        Err(fault) => return Err(bitcode_told(alloc, name, fault)),
    };
    match verify(alloc, arena) {
        Ok(checked) => Ok(checked),
        Err(fault) => Err(verdict_told(alloc, name, fault)),
    }
}
