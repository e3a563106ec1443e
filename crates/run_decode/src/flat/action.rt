//! Actions, flat: what each instruction of a body comes to, with its lists in the pools of the body.

use crate::flat::leaf::{LeafAt, Span};
use ir_tables::{Flags, Opcode, Predicate};
use type_table::TypeId;

/// How many terms an address has at most.
pub const TERMS: usize = 1_048_576;

/// A term of a `getelementptr`: so many elements of a size, or so many bytes up to a field.
///
/// ```
/// // of `getelementptr i32, ptr %p, i64 %n`, where `%n` stands at place 1 of the frame
/// Term { index: LeafAt::Held(1), width: 64, size: 4, gathered: false }
/// ```
#[derive(Clone, Copy)]
pub struct Term {
    pub index: LeafAt,
    /// The width of the index in bits.
    pub width: u8,
    /// The size in bytes.
    pub size: u64,
    /// Whether the term is in the sum of its instruction already.
    pub gathered: bool,
}

/// The parts of a `call` but for its result and its callee.
///
/// ```
/// // of `call i32 @f(i32 %a)`, the first call of a run, where no types were in the pools before
/// CallParts {
///     signature: 0,
///     returns, // `i32`
///     parameters: Span { first: 0, count: 1 },
///     variadic: false,
///     shapes: Span { first: 1, count: 1 },
///     arguments, // a span of one origin, that of `%a`
/// }
/// ```
#[derive(Clone, Copy)]
pub struct CallParts {
    /// The number of the function type among those that a run of the module has met.
    pub signature: u32,
    pub returns: TypeId,
    /// Among the types: those of the parameters.
    pub parameters: Span,
    pub variadic: bool,
    /// Among the types: those of the arguments.
    pub shapes: Span,
    /// Among the origins: the leaves of the arguments, one after another.
    pub arguments: Span,
}

/// What an instruction comes to once each name, type and layout in it is known. `to` is the place in the frame of the result's
/// first leaf, widths are in bits, sizes and alignments in bytes. An edge is a place among the edges. It takes at most 40 bytes.
///
/// ```
/// Action::Jump { edge: 0 } // `br label %b`, where that is the first edge of its body
/// Action::Return { value: NOTHING } // `ret void`
/// ```
#[derive(Clone, Copy)]
pub enum Action {
    /// A binary instruction on integers.
    Compute {
        to: u32,
        opcode: Opcode,
        flags: Flags,
        width: u8,
        left: LeafAt,
        right: LeafAt,
    },
    /// `icmp`; the width of pointers is written 64.
    Compare {
        to: u32,
        predicate: Predicate,
        samesign: bool,
        width: u8,
        left: LeafAt,
        right: LeafAt,
    },
    /// A cast; the width of pointers is written 64.
    Convert {
        to: u32,
        opcode: Opcode,
        flags: Flags,
        from_width: u8,
        to_width: u8,
        value: LeafAt,
    },
    /// `select`: a leaf of each operand is an arm.
    Select {
        to: u32,
        condition: LeafAt,
        arms: Span,
    },
    /// `freeze`: each leaf is a part.
    Freeze {
        to: u32,
        parts: Span,
    },
    /// `extractvalue` and `insertvalue`: the leaves of the result are among the origins.
    Gather {
        to: u32,
        value: Span,
    },
    /// `load`
    Load {
        to: u32,
        align: u32,
        address: LeafAt,
        slots: Span,
    },
    /// `store`: the leaves are among the origins, and what they are among the slots.
    Store {
        align: u32,
        address: LeafAt,
        slots: Span,
        value: Span,
    },
    /// `alloca`: a block for so many values of that size.
    Allocate {
        to: u32,
        align: u32,
        size: u64,
        count: LeafAt,
    },
    /// `getelementptr`: its terms, and the place among the sums of the sum of those that are gathered.
    Displace {
        to: u32,
        inbounds: bool,
        base: LeafAt,
        terms: Span,
        sum: u32,
    },
    /// `call`: its further parts are among the calls.
    Call {
        to: u32,
        callee: LeafAt,
        call: u32,
    },
    /// `ret`: the leaves are among the origins.
    Return {
        value: Span,
    },
    /// `br` to one block.
    Jump {
        edge: u32,
    },
    /// `br` on a condition.
    Branch {
        condition: LeafAt,
        then_edge: u32,
        else_edge: u32,
    },
    /// `switch`
    Switch {
        value: LeafAt,
        otherwise: u32,
        cases: Span,
    },
    /// `unreachable`
    Unreachable,
    /// A phi: an edge passes it over, and no run stands at it.
    Passed,
}

const _: () = prove!(size_of::<Action>() <= 40);
