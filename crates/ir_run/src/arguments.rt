//! The arguments of main.
ghost use Rattle.std.specs.Prelude.{◌≡◌, ◌∷◌, ◌++◌, [], ◌+◌, ◌*◌, ◌≤◌, All, Err, IfOk, IsOk, MatchOption, OnOk, false, length};
ghost use Rattle.ir_eval.specs.Cast.{pointer_at};
ghost use Rattle.ir_eval.specs.declared.value.Scalar.TheVariants as scalar;
ghost use Rattle.ir_memory.specs.Answer.{Keeps};
ghost use Rattle.ir_memory.specs.declared.leaf.Leaf.TheVariants as leaf;
ghost use Rattle.ir_memory.specs.Given.{IsAlignment, IsKnown};
ghost use Rattle.ir_memory.specs.Memory.{HasFreeAddresses, byte_limit, reach};
ghost use Rattle.type_table.specs.declared.measure.TheConstants.{SIZE_LIMIT};
ghost use Rattle.run_names.specs.Entry.Mains.{main_seen};
ghost use Rattle.run_initial.specs.Initial.Constants.{bytes_at};
ghost use Rattle.run_initial.specs.Initial.Fresh.{Puts, put};
ghost use Rattle.ir_run.specs.Arguments.{MakesBlock, MakesMain, MakesWith, PlacesAll, behind_variables, pointers_at};
ghost use Rattle.run_rules.specs.declared.end.End.TheVariants as ends;
ghost use Rattle.run_rules.specs.Opening.{with_main, with_pointers, with_string, with_strings};
ghost use Rattle.run_names.specs.Values.Answer.{Stores};

use ir_base::{Text, TextList};
use ir_eval::{Pointer, Scalar};
use ir_memory::{BlockKind, Leaf, Memory, MemoryFault};
use run_acts::DueCall;
use run_initial::initial::{Target, put_bytes, put_leaf, wanting_memory};
use run_names::entry::MainFunction;
use std::alloc::{AllocError, Global};

/// The address 0, which has no block.
const NULL: Pointer = Pointer {
    block: None,
    address: 0,
};

/// A block more for words, fresh; None exactly where too many bytes would live.
fn add_block(memory: &mut Memory, size: u64, align: u32) -> Result<Option<Pointer>, AllocError>
    requires align { IsAlignment align }
    requires next { HasFreeAddresses memory.old }
    ensures made { IfOk result (λ block. MakesBlock size align block memory.old memory.new) }
    ensures growth { memory.new.next ≤ memory.old.next + reach }
{
    match memory.add_block(size, align, BlockKind::Variable(false)) {
        Ok(block) => Ok(Some(block)),
        Err(MemoryFault::MemoryLimit) => Ok(None),
        Err(MemoryFault::Memory) => Err(AllocError),
        // A block that is added is never undefined.
        Err(MemoryFault::Undefined(_)) => unreachable!(),
    }
}

/// Puts bytes into a block from its start on, where no store of them is undefined: only memory may be wanting.
fn fill_string(memory: &mut Memory, block: Pointer, bytes: &[u8]) -> Result<(), AllocError>
    requires ends { length bytes.now ≤ SIZE_LIMIT }
    requires block { IsKnown memory.old.list block }
    requires well { IsOk (put block (bytes_at 0 bytes.now) memory.old) }
    ensures put { OnOk result (Puts block (bytes_at 0 bytes.now) memory.old memory.new) }
    ensures kept { Keeps memory.old memory.new }
{
    wanting_memory(put_bytes(memory, Target { block, offset: 0 }, bytes))
}

/// A block with a string in it, followed by a zero byte, which fresh memory has; None where too many bytes would live.
fn place_string(memory: &mut Memory, bytes: &[u8]) -> Result<Option<Pointer>, AllocError>
    requires unsealed { memory.old.sealed ≡ false }
    requires next { HasFreeAddresses memory.old }
    ensures made { IfOk result (λ block. MakesWith (with_string bytes.now memory.old) block memory.old memory.new) }
    ensures growth { memory.new.next ≤ memory.old.next + reach }
{
    let size = bytes.len() as u64 + 1;
    let Some(block) = add_block(memory, size, 1)? else {
        return Ok(None);
    };
    // The block is fresh and long enough.
    fill_string(memory, block, bytes)?;
    Ok(Some(block))
}

/// The blocks of strings, one after another; None where too many bytes would live.
fn place_strings(
    alloc: Global,
    memory: &mut Memory,
    strings: &[Text],
) -> Result<Option<Vec<Pointer>>, AllocError>
    requires unsealed { memory.old.sealed ≡ false }
    requires next { memory.old.next ≤ behind_variables }
    ensures { IfOk result (λ found. MatchOption found (with_strings strings.now memory.old ≡ Err ends.MemoryLimit) (λ blocks. PlacesAll (with_strings strings.now memory.old) blocks.items memory.old memory.new)) }
{
    let mut blocks = Vec::new(alloc);
    // Each string has a byte at least, and no more than 2^28 live: so the next address stays near.
    'strings: for string in strings {
        let Some(block) = place_string(memory, string.bytes())? else {
            return Ok(None);
        };
        blocks.push(block)?;
    }
    Ok(Some(blocks))
}

/// Stores a pointer in a row of pointers, at that place, counted from 0.
fn put_pointer(
    memory: &mut Memory,
    block: Pointer,
    place: usize,
    pointer: Pointer,
) -> Result<(), MemoryFault>
    requires within { place ≤ byte_limit }
    requires block { IsKnown memory.old.list block }
    requires pointer { IsKnown memory.old.list pointer }
    ensures put { Stores (put block ((record { offset = place * 8; leaf = leaf.Ptr }, scalar.Ptr pointer) ∷ []) memory.old) memory.new result }
    ensures kept { Keeps memory.old memory.new }
{
    let target = Target {
        block,
        offset: place as u64 * 8,
    };
    put_leaf(memory, target, Leaf::Ptr, Scalar::Ptr(pointer))
}

/// Stores pointers one behind the other from the start of a block on, and a null behind them.
fn put_pointers(
    memory: &mut Memory,
    block: Pointer,
    pointers: &[Pointer],
) -> Result<(), MemoryFault>
    requires few { length pointers.now ≤ byte_limit }
    requires block { IsKnown memory.old.list block }
    requires known { All (IsKnown memory.old.list) pointers.now }
    ensures put { Stores (put block (pointers_at 0 (pointers.now ++ pointer_at 0 ∷ [])) memory.old) memory.new result }
    ensures kept { Keeps memory.old memory.new }
{
    'pointers: for place in 0..pointers.len() {
        put_pointer(memory, block, place, pointers[place])?;
    }
    put_pointer(memory, block, pointers.len(), NULL)
}

/// Stores pointers so, where no store of them is undefined: only memory may be wanting.
fn fill_row(memory: &mut Memory, block: Pointer, pointers: &[Pointer]) -> Result<(), AllocError>
    requires few { length pointers.now ≤ byte_limit }
    requires block { IsKnown memory.old.list block }
    requires known { All (IsKnown memory.old.list) pointers.now }
    requires well { IsOk (put block (pointers_at 0 (pointers.now ++ pointer_at 0 ∷ [])) memory.old) }
    ensures put { OnOk result (Puts block (pointers_at 0 (pointers.now ++ pointer_at 0 ∷ [])) memory.old memory.new) }
    ensures kept { Keeps memory.old memory.new }
{
    wanting_memory(put_pointers(memory, block, pointers))
}

/// A block with pointers in it, followed by a null; None where too many bytes would live.
fn place_pointers(memory: &mut Memory, pointers: &[Pointer]) -> Result<Option<Pointer>, AllocError>
    requires unsealed { memory.old.sealed ≡ false }
    requires next { HasFreeAddresses memory.old }
    requires few { length pointers.now ≤ byte_limit }
    requires known { All (IsKnown memory.old.list) pointers.now }
    ensures { IfOk result (λ block. MakesWith (with_pointers pointers.now memory.old) block memory.old memory.new) }
{
    let size = 8 * (pointers.len() as u64 + 1);
    let Some(block) = add_block(memory, size, 8)? else {
        return Ok(None);
    };
    // The block is fresh and long enough.
    fill_row(memory, block, pointers)?;
    Ok(Some(block))
}

/// Main, as it is due: where it takes arguments, these lie in memory from then on, each followed by a zero byte, and so does the array
/// of pointers to them, followed by a null. None exactly where too many bytes would live. It is refused for want of memory alone.
pub fn place_main(
    alloc: Global,
    memory: &mut Memory,
    main: MainFunction,
    arguments: &TextList,
) -> Result<Option<DueCall>, AllocError>
    requires unsealed { memory.old.sealed ≡ false }
    requires next { memory.old.next ≤ behind_variables }
    ensures { IfOk result (λ call. MakesMain (with_main (main_seen main) arguments.now memory.old) call memory.old memory.new) }
{
    if !main.takes_arguments {
        return Ok(Some(DueCall::Main(main.address)));
    }
    let Some(strings) = place_strings(alloc, memory, arguments.as_slice())? else {
        return Ok(None);
    };
    let Some(array) = place_pointers(memory, &strings)? else {
        return Ok(None);
    };
    let count = strings.len() as u32;
    Ok(Some(DueCall::MainWith(main.address, count, array)))
}
