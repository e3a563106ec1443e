//! Bodies of functions without parameters.
ghost use Rattle.std.specs.Prelude.{◌≡◌, ◌∷◌, [], None, Some, length, IfOk};
ghost use Rattle.module_arena.specs.declared.instruction.Inst.TheVariants as inst;
ghost use Rattle.arena_table.specs.Bodies.{KnowsParts, at, block, stores, loads, adds, compares, small_blocks, entry_block, test_block, turn_block, step_block, last_block, sum_blocks};

use crate::answer::Refusal;
use crate::known::{const_id, type_id};
use ir_base::ItemList;
use ir_tables::{Flag, Flags, Opcode, Predicate};
use module_arena::LocalName::Numbered;
use module_arena::{Arena, Block, BlockId, Body, ConstId, Ending, Inst, Operand, Value, ValueId};
use std::alloc::{AllocError, Global};
use type_table::TypeId;

/// The types and constants of a body.
#[derive(Clone, Copy)]
pub struct Parts {
    pub ty: TypeId,
    pub pointer: TypeId,
    pub bit: TypeId,
    pub start: ConstId,
    pub limit: ConstId,
    pub step: ConstId,
}

/// Three types and three constants, by their numbers.
pub fn read_parts(arena: &Arena, numbers: &[u64]) -> Result<Parts, Refusal>
    ensures { IfOk result (KnowsParts (length arena.now.table.types) (length arena.now.constants)) }
{
    let [ty, pointer, bit, start, limit, step] = numbers else {
        return Err(Refusal::NoCall);
    };
    Ok(Parts {
        ty: type_id(arena, *ty)?,
        pointer: type_id(arena, *pointer)?,
        bit: type_id(arena, *bit)?,
        start: const_id(arena, *start)?,
        limit: const_id(arena, *limit)?,
        step: const_id(arena, *step)?,
    })
}

/// A result at a type.
fn at(ty: TypeId, number: u32) -> Operand
    ensures { result ≡ at ty number }
{
    let value = Value::Local(ValueId::new(number));
    Operand { ty, value }
}

fn slot(parts: &Parts, number: u32) -> Inst
    ensures { result ≡ inst.Alloca number parts.now.ty None (Some 4) }
{
    Inst::Alloca(ValueId::new(number), parts.ty, None, Some(4))
}

fn store(parts: &Parts, value: Value, address: u32) -> Inst
    ensures { result ≡ stores parts.now value address }
{
    let stored = Operand {
        ty: parts.ty,
        value,
    };
    Inst::Store(Flags::empty(), stored, at(parts.pointer, address), Some(4))
}

fn load(parts: &Parts, number: u32, address: u32) -> Inst
    ensures { result ≡ loads parts.now number address }
{
    let address = at(parts.pointer, address);
    Inst::Load(
        Flags::empty(),
        ValueId::new(number),
        parts.ty,
        address,
        Some(4),
    )
}

fn add(parts: &Parts, number: u32, left: u32, right: Value) -> Inst
    ensures { result ≡ adds parts.now number left right }
{
    let flags = Flags::empty().with(Flag::Nsw);
    Inst::Binary(
        Opcode::Add,
        flags,
        ValueId::new(number),
        at(parts.ty, left),
        right,
    )
}

fn less(parts: &Parts, number: u32, left: u32, right: Value) -> Inst
    ensures { result ≡ compares parts.now number left right }
{
    Inst::Compare(
        Flags::empty(),
        Predicate::Slt,
        ValueId::new(number),
        at(parts.ty, left),
        right,
    )
}

fn block(number: u32, instructions: Vec<Inst>, end: Ending) -> Block
    ensures { result ≡ block number instructions.items end }
{
    Block {
        name: Numbered(number),
        instructions: ItemList::from_vec(instructions),
        end,
    }
}

/// A body that stores a constant, adds one to it and returns the sum.
pub fn small_body(alloc: Global, parts: &Parts) -> Result<Body, AllocError>
    ensures { IfOk result (λ body. (body.blocks ≡ small_blocks parts.now) × (length body.results ≡ 3)) }
{
    let instructions = vec![in alloc;
        slot(parts, 0),
        store(parts, Value::Known(parts.start), 0),
        load(parts, 1, 0),
        add(parts, 2, 1, Value::Known(parts.step)),
        store(parts, Value::Local(ValueId::new(2)), 0),
    ]?;
    let block = block(0, instructions, Ending::Return(at(parts.ty, 2)));
    let results = vec![in alloc; Numbered(1), Numbered(2), Numbered(3)]?;
    Ok(Body {
        blocks: ItemList::from_vec(vec![in alloc; block]?),
        results: ItemList::from_vec(results),
    })
}

fn entry_block(alloc: Global, parts: &Parts) -> Result<Block, AllocError>
    ensures { IfOk result (λ block. block ≡ entry_block parts.now) }
{
    let instructions = vec![in alloc;
        slot(parts, 0),
        slot(parts, 1),
        slot(parts, 2),
        store(parts, Value::Known(parts.start), 0),
        store(parts, Value::Known(parts.start), 1),
        store(parts, Value::Known(parts.start), 2),
    ]?;
    Ok(block(0, instructions, Ending::Jump(BlockId::new(1))))
}

fn test_block(alloc: Global, parts: &Parts) -> Result<Block, AllocError>
    ensures { IfOk result (λ block. block ≡ test_block parts.now) }
{
    let instructions = vec![in alloc;
        load(parts, 3, 2),
        less(parts, 4, 3, Value::Known(parts.limit)),
    ]?;
    let end = Ending::Branch {
        condition: at(parts.bit, 4),
        then_to: BlockId::new(2),
        else_to: BlockId::new(4),
    };
    Ok(block(4, instructions, end))
}

fn turn_block(alloc: Global, parts: &Parts) -> Result<Block, AllocError>
    ensures { IfOk result (λ block. block ≡ turn_block parts.now) }
{
    let instructions = vec![in alloc;
        load(parts, 5, 2),
        load(parts, 6, 1),
        add(parts, 7, 6, Value::Local(ValueId::new(5))),
        store(parts, Value::Local(ValueId::new(7)), 1),
    ]?;
    Ok(block(7, instructions, Ending::Jump(BlockId::new(3))))
}

fn step_block(alloc: Global, parts: &Parts) -> Result<Block, AllocError>
    ensures { IfOk result (λ block. block ≡ step_block parts.now) }
{
    let instructions = vec![in alloc;
        load(parts, 8, 2),
        add(parts, 9, 8, Value::Known(parts.step)),
        store(parts, Value::Local(ValueId::new(9)), 2),
    ]?;
    Ok(block(11, instructions, Ending::Jump(BlockId::new(1))))
}

fn last_block(alloc: Global, parts: &Parts) -> Result<Block, AllocError>
    ensures { IfOk result (λ block. block ≡ last_block parts.now) }
{
    let instructions = vec![in alloc; load(parts, 10, 1)]?;
    Ok(block(14, instructions, Ending::Return(at(parts.ty, 10))))
}

/// The body of the loop that sums up the numbers below a limit, as clang prints it.
pub fn sum_body(alloc: Global, parts: &Parts) -> Result<Body, AllocError>
    ensures { IfOk result (λ body. (body.blocks ≡ sum_blocks parts.now) × (length body.results ≡ 11)) }
{
    let entry = entry_block(alloc, parts)?;
    let test = test_block(alloc, parts)?;
    let turn = turn_block(alloc, parts)?;
    let step = step_block(alloc, parts)?;
    let last = last_block(alloc, parts)?;
    let blocks = vec![in alloc; entry, test, turn, step, last]?;
    let results = vec![in alloc;
        Numbered(1),
        Numbered(2),
        Numbered(3),
        Numbered(5),
        Numbered(6),
        Numbered(8),
        Numbered(9),
        Numbered(10),
        Numbered(12),
        Numbered(13),
        Numbered(15),
    ]?;
    Ok(Body {
        blocks: ItemList::from_vec(blocks),
        results: ItemList::from_vec(results),
    })
}
