//! Where the variables of a module lie.
ghost use Rattle.std.specs.Prelude.{◌≡◌, ◌+◌, ◌≤◌, ◌<◌, ◌^◌, length, true, IfOk};
ghost use Rattle.type_table.specs.declared.measure.TheConstants.{SIZE_LIMIT};
ghost use Rattle.run_names.specs.Spots.{AreAddresses, AreSpots, absent_leaf, defines, spot_at, variables_half};

use crate::standing::is_definition;
use ir_eval::{Pointer, Scalar};
use ir_tables::Linkage;
use linkage_rules::{FIRST_ADDRESS, GAP};
use module_arena::{Arena, Checked, VariableId};
use std::alloc::{AllocError, Global};

/// Where a variable lies. Its block has the number of its spot, counted from 0.
///
/// ```
/// // of `@a = global i32 7`, the one variable of its module
/// Spot { variable, start: 65_536, size: 4, align: 4, constant: false }
/// ```
#[derive(Clone, Copy)]
pub struct Spot {
    /// Which one.
    pub variable: VariableId,
    /// Its first byte.
    pub start: u64,
    /// Its bytes.
    pub size: u64,
    /// Its alignment in bytes: the one that is stated, or else the type's.
    pub align: u32,
    /// Whether it is never written.
    pub constant: bool,
}

/// Where a variable that is defined lies, if the variables before it end at that address.
fn spot_of(program: &Checked, id: VariableId, next: u64) -> Spot
    requires id { id < length program.now.variables }
    requires defined { defines program.now id ≡ true }
    requires next { next ≤ variables_half }
    ensures spot { result ≡ spot_at program.now id next }
    ensures size { result.size ≤ SIZE_LIMIT }
    ensures start { result.start ≤ next + 2 ^ 16 }
{
    let arena = program.arena();
    // The types of the variables of an arena are types of the arena.
    let _count = arena.variable_count();
    let variable = arena.variable(id);
    let types = arena.types();
    // No type of a table is larger than its limits.
    let _type_count = types.type_count();
    // The type of what is defined has a layout.
    let layout = types.layout(variable.ty).unwrap();
    let align = variable.alignment.unwrap_or(layout.align);
    Spot {
        variable: id,
        start: next.next_multiple_of(u64::from(align)),
        size: layout.size,
        align,
        constant: variable.constant,
    }
}

/// Whether a variable is defined.
fn is_defined(arena: &Arena, id: VariableId) -> bool
    requires { id < length arena.now.variables }
    ensures { result ≡ defines arena.now id }
{
    let variable = arena.variable(id);
    is_definition(variable.linkage, variable.initialiser.is_some())
}

/// Where the variables lie that are defined, in their order, from address 65,536 on (LangRef, "Global Variables").
pub(crate) fn spots_of(alloc: Global, program: &Checked) -> Result<Vec<Spot>, AllocError>
    ensures { IfOk result (λ spots. AreSpots program.now spots.items) }
{
    let arena = program.arena();
    let mut spots = Vec::new(alloc);
    let mut next = FIRST_ADDRESS;
    'variables: for number in 0..arena.variable_count() {
        let id = VariableId::new(number);
        if is_defined(arena, id) {
            let spot = spot_of(program, id, next);
            next = spot.start + spot.size + GAP;
            spots.push(spot)?;
        }
    }
    Ok(spots)
}

/// The address of a variable that no one defines: null where the module can do without it. No run comes to any other.
fn absent(linkage: Linkage) -> Scalar
    ensures { result ≡ absent_leaf linkage }
{
    match linkage {
        Linkage::ExternWeak => Scalar::Ptr(Pointer {
            block: None,
            address: 0,
        }),
        _ => Scalar::Poison,
    }
}

/// The addresses of all variables, in their order.
pub(crate) fn addresses_of(
    alloc: Global,
    program: &Checked,
    spots: &[Spot],
) -> Result<Vec<Scalar>, AllocError>
    requires { AreSpots program.now spots.now }
    ensures { IfOk result (λ addresses. AreAddresses program.now addresses.items) }
{
    let arena = program.arena();
    let count = arena.variable_count();
    let mut addresses = Vec::with_capacity(alloc, count as usize)?;
    let mut block = 0;
    'variables: for number in 0..count {
        let id = VariableId::new(number);
        if is_defined(arena, id) {
            addresses.push(Scalar::Ptr(Pointer {
                block: Some(block as u64),
                address: spots[block].start,
            }))?;
            block += 1;
        } else {
            addresses.push(absent(arena.variable(id).linkage))?;
        }
    }
    Ok(addresses)
}
