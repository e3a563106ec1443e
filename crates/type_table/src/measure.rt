//! The measure of a type, and how it is found from those of its parts.
ghost use Rattle.std.specs.Prelude.{◌≡◌, ◌↔◌, ◌<◌, ◌+◌, max, Some, true, IsTrue, [], ◌∷◌, OnOk, IfErr};
ghost use Rattle.std.specs.Int.{next_multiple_of};
ghost use Rattle.type_table.specs.Kept.{IsSmall, IsLarge, HasListFault};
ghost use Rattle.type_table.specs.Layout.{int_align, field_start};
ghost use Rattle.type_table.specs.Shape.{int_leaf, ptr_leaf, void_leaf};
ghost use Rattle.type_table.specs.Outline.{next_offset};
ghost use Rattle.type_table.specs.Measures.{measure, capped, capped_nesting, capped_parts, opaque_measure, array_measure, empty_struct, with_field_layout, with_field, rounded, closed, struct_measure};

use crate::{Layout, TypeFault};

/// How deep types nest at most.
pub const NESTING_LIMIT: u8 = 64;

/// How many parts a type has at most.
pub const PARTS_LIMIT: u32 = 1 << 20;

/// The greatest size of a type in bytes, and the greatest length of an array.
pub const SIZE_LIMIT: u64 = 1 << 40;

/// How deep a type nests, how many parts it has and how it lies in memory, each cut where it is too large for good: a
/// measure is found from those of the type's parts, and the type need be in no table.
///
/// ```
/// let pair = Measure::of_struct(false, &[Measure::int(8), Measure::int(32)]); // of `{ i8, i32 }`
/// pair.nesting // 1
/// pair.parts // 3
/// pair.layout // Some(Layout { size: 8, align: 4, leaves: 2 })
/// ```
#[derive(Clone, Copy)]
pub struct Measure {
    /// 0 for an integer, a pointer and `void`; for an array and a struct one more than the deepest part. 255 stands
    /// for any number past it.
    pub nesting: u8,
    /// The nodes of the type, written out through the bodies of its structs; 2^20 + 1 stands for any number past 2^20.
    pub parts: u32,
    /// How the type lies in memory, unless it is or holds `void` or a struct without a body. A size and a number of
    /// leaves of 2^40 + 1 stand for any past 2^40.
    pub layout: Option<Layout>,
}

/// The number, or the first one past the limit on sizes.
fn capped(bytes: u64) -> u64
    ensures { result ≡ capped bytes }
{
    bytes.min(SIZE_LIMIT + 1)
}

/// The number, or the first one past the limit on parts.
fn capped_parts(parts: u32) -> u32
    ensures { result ≡ capped_parts parts }
{
    parts.min(PARTS_LIMIT + 1)
}

/// One deeper.
fn deeper(nesting: u8) -> u8
    ensures { result ≡ capped_nesting (nesting + 1) }
{
    nesting.saturating_add(1)
}

/// The alignment of an integer, from its width in bits.
fn int_align(width: u8) -> u32
    ensures { result ≡ int_align width }
{
    match width {
        0..=8 => 1,
        9..=16 => 2,
        17..=32 => 4,
        33..=64 => 8,
        _ => 16,
    }
}

/// The least multiple of the alignment that is not below the byte. An alignment is at least 1.
fn rounded_up(at: u64, align: u32) -> u64
    ensures { result ≡ next_multiple_of (capped at) (max 1 align) }
{
    capped(at).next_multiple_of(u64::from(align.max(1)))
}

/// Where a field of that alignment begins, if the fields before it end at the byte.
fn field_start(packed: bool, at: u64, align: u32) -> u64
    ensures { result ≡ field_start packed (capped at) (max 1 align) }
{
    if packed {
        capped(at)
    } else {
        rounded_up(at, align)
    }
}

/// A layout that ends with the last field so far, with one field more.
fn with_field_layout(packed: bool, sofar: Layout, field: Layout) -> Layout
    ensures { Some result ≡ with_field_layout packed (Some sofar) (Some field) }
{
    let start = field_start(packed, sofar.size, field.align);
    Layout {
        size: capped(start.saturating_add(field.size)),
        align: if packed {
            sofar.align
        } else {
            sofar.align.max(field.align)
        },
        leaves: capped(sofar.leaves.saturating_add(field.leaves)),
    }
}

/// Whether two layouts are the same.
fn is_layout(one: Layout, other: Layout) -> bool
    ensures { result ≡ true → one ≡ other }
{
    one.size == other.size && one.align == other.align && one.leaves == other.leaves
}

impl Measure {
    /// Whether the measures are the same.
    pub(crate) fn is_same(&self, other: Measure) -> bool
        ensures { result ≡ true → self.now ≡ other }
    {
        if self.nesting != other.nesting || self.parts != other.parts {
            return false;
        }
        match (self.layout, other.layout) {
            (Some(layout), Some(other_layout)) => is_layout(layout, other_layout),
            (None, None) => true,
            _ => false,
        }
    }

    /// Whether the type nests too deep.
    pub fn is_too_deep(&self) -> bool
        ensures { IsTrue result ↔ (NESTING_LIMIT < self.now.nesting) }
    {
        self.nesting > NESTING_LIMIT
    }

    /// Whether the type has too many parts or is too large. The length of an array is no part of a measure.
    pub fn is_too_large(&self) -> bool
        ensures { IsTrue result ↔ IsLarge self.now }
    {
        self.parts > PARTS_LIMIT || self.layout.is_some_and(|layout| layout.size > SIZE_LIMIT)
    }

    /// Refuses a type past its limits: one that nests too deep, or else one that is too large.
    pub fn check(&self) -> Result<(), TypeFault>
        ensures small { OnOk result (IsSmall self.now) }
        ensures fault { IfErr result (HasListFault (self.now ∷ [])) }
    {
        if self.is_too_deep() {
            return Err(TypeFault::TooDeep);
        }
        if self.is_too_large() {
            return Err(TypeFault::TooLarge);
        }
        Ok(())
    }

    /// An integer of that width in bits.
    pub fn int(width: u8) -> Measure
        ensures { result ≡ measure (int_leaf width) }
    {
        let align = int_align(width);
        let bytes = (u64::from(width) + 7) / 8;
        Measure {
            nesting: 0,
            parts: 1,
            layout: Some(Layout {
                size: rounded_up(bytes, align),
                align,
                leaves: 1,
            }),
        }
    }

    /// A pointer.
    pub fn ptr() -> Measure
        ensures { result ≡ measure ptr_leaf }
    {
        Measure {
            nesting: 0,
            parts: 1,
            layout: Some(Layout {
                size: 8,
                align: 8,
                leaves: 1,
            }),
        }
    }

    /// No value.
    pub fn void() -> Measure
        ensures { result ≡ measure void_leaf }
    {
        Measure {
            nesting: 0,
            parts: 1,
            layout: None,
        }
    }

    /// A struct of which no fields are known.
    pub fn opaque() -> Measure
        ensures { result ≡ opaque_measure }
    {
        Measure {
            nesting: 1,
            parts: 1,
            layout: None,
        }
    }

    /// An array of that many such elements.
    pub fn array(length: u64, element: Measure) -> Measure
        ensures { result ≡ array_measure length element }
    {
        Measure {
            nesting: deeper(element.nesting),
            parts: capped_parts(element.parts.saturating_add(1)),
            layout: element.layout.map(|layout| Layout {
                size: capped(length.saturating_mul(layout.size)),
                align: layout.align,
                leaves: capped(length.saturating_mul(layout.leaves)),
            }),
        }
    }

    /// The struct without fields.
    pub fn empty_struct() -> Measure
        ensures { result ≡ empty_struct }
    {
        Measure {
            nesting: 1,
            parts: 1,
            layout: Some(Layout {
                size: 0,
                align: 1,
                leaves: 0,
            }),
        }
    }

    /// The struct of the fields so far, with one field more. Its size is not rounded up yet.
    pub fn with_field(self, packed: bool, field: Measure) -> Measure
        ensures { result ≡ with_field packed self field }
    {
        Measure {
            nesting: self.nesting.max(deeper(field.nesting)),
            parts: capped_parts(self.parts.saturating_add(field.parts)),
            layout: match (self.layout, field.layout) {
                (Some(sofar), Some(layout)) => Some(with_field_layout(packed, sofar, layout)),
                _ => None,
            },
        }
    }

    /// Where a field begins that follows the fields so far.
    pub(crate) fn next_offset(&self, packed: bool, field: Measure) -> Option<u64>
        ensures { result ≡ next_offset packed self.now.layout field.layout }
    {
        match (self.layout, field.layout) {
            (Some(sofar), Some(layout)) => Some(field_start(packed, sofar.size, layout.align)),
            _ => None,
        }
    }

    /// The struct of the fields so far, with its size rounded up to its alignment.
    pub fn closed(self) -> Measure
        ensures { result ≡ closed self }
    {
        Measure {
            nesting: self.nesting,
            parts: self.parts,
            layout: self.layout.map(|layout| Layout {
                size: capped(rounded_up(layout.size, layout.align)),
                align: layout.align,
                leaves: layout.leaves,
            }),
        }
    }

    /// The struct of these fields.
    pub fn of_struct(packed: bool, fields: &[Measure]) -> Measure
        ensures { result ≡ struct_measure packed fields.now }
    {
        let mut sofar = Measure::empty_struct();
        for field in fields {
            sofar = sofar.with_field(packed, *field);
        }
        sofar.closed()
    }
}
