//! Instructions whose result is one leaf.
ghost use Rattle.std.specs.Prelude.{IsTrue};
ghost use Rattle.ir_eval.specs.Cast.{IsCast};
ghost use Rattle.ir_eval.specs.Compare.{AreComparable};
ghost use Rattle.ir_eval.specs.Operators.{is_binary};
ghost use Rattle.ir_eval.specs.Value.{IsInteger, IsWidth};
ghost use Rattle.run_rules.specs.Action.{Compare, Compute, Convert};
ghost use Rattle.run_actions.specs.Stack.Origins.{origin_of};
ghost use Rattle.run_actions.specs.Carried.{Acts, IsCarriedOut};
ghost use Rattle.run_actions.specs.Operands.{IsPlace, IsThere, leaf_of, MayGoOn};

use crate::result::give;
use crate::stack::{Origin, Stack};
use ir_eval::{binary, cast};
use ir_tables::{Flags, Opcode, Predicate, UndefinedKind};

/// A binary instruction on integers (LangRef, "Binary Operations", "Bitwise Binary Operations"). Widths are in bits.
///
/// Refused where the instruction is undefined.
#[inline(always)]
pub fn compute(
    stack: &mut Stack,
    to: u32,
    opcode: Opcode,
    flags: Flags,
    width: u8,
    left: &Origin,
    right: &Origin,
) -> Result<(), UndefinedKind>
    requires on { MayGoOn stack.old }
    requires place { IsPlace stack.old to }
    requires binary { IsTrue (is_binary opcode) }
    requires width { IsWidth width }
    requires left_there { IsThere stack.old left.now }
    requires right_there { IsThere stack.old right.now }
    requires left { IsInteger width (leaf_of stack.old left.now) }
    requires right { IsInteger width (leaf_of stack.old right.now) }
    ensures { Acts (Compute to opcode flags width (origin_of left.now) (origin_of right.now)) result stack.old stack.new }
{
    let leaf = binary(opcode, flags, width, stack.read(left), stack.read(right))?;
    give(stack, to, leaf);
    Ok(())
}

/// A comparison of integers or pointers (LangRef, "icmp Instruction"). The width is in bits, that of pointers 64.
#[inline(always)]
pub fn compare(
    stack: &mut Stack,
    to: u32,
    predicate: Predicate,
    samesign: bool,
    width: u8,
    left: &Origin,
    right: &Origin,
)
    requires on { MayGoOn stack.old }
    requires place { IsPlace stack.old to }
    requires width { IsWidth width }
    requires left_there { IsThere stack.old left.now }
    requires right_there { IsThere stack.old right.now }
    requires operands { AreComparable width (leaf_of stack.old left.now) (leaf_of stack.old right.now) }
    ensures { IsCarriedOut (Compare to predicate samesign width (origin_of left.now) (origin_of right.now)) stack.old stack.new }
{
    let leaf = ir_eval::compare(
        predicate,
        samesign,
        width,
        stack.read(left),
        stack.read(right),
    );
    give(stack, to, leaf);
}

/// A cast between integers, or between integers and pointers (LangRef, "Conversion Operations"). Widths are in bits, that of pointers
/// 64.
#[inline(always)]
pub fn convert(
    stack: &mut Stack,
    to: u32,
    opcode: Opcode,
    flags: Flags,
    from_width: u8,
    to_width: u8,
    value: &Origin,
)
    requires on { MayGoOn stack.old }
    requires place { IsPlace stack.old to }
    requires from_width { IsWidth from_width }
    requires to_width { IsWidth to_width }
    requires there { IsThere stack.old value.now }
    requires cast { IsCast opcode from_width to_width (leaf_of stack.old value.now) }
    ensures { IsCarriedOut (Convert to opcode flags from_width to_width (origin_of value.now)) stack.old stack.new }
{
    let leaf = cast(opcode, flags, from_width, to_width, stack.read(value));
    give(stack, to, leaf);
}
