//! How many of the first types a struct asks for.
ghost use Rattle.std.specs.Prelude.{◌≡◌, ℕ, ◌+◌, ◌-◌, ◌^◌, ◌<◌, ◌≤◌, max, All, Some};
ghost use Rattle.type_table.specs.Types.{KnowsBody};

use type_table::{StructBody, TypeId};

/// The id behind this one, or that one where it is farther.
fn farther(behind: u64, id: TypeId) -> u64
    requires { id < 2 ^ 64 - 1 }
    ensures { result ≡ max behind (id + 1) }
{
    if id.number() >= behind {
        id.number() + 1
    } else {
        behind
    }
}

/// The id behind all of these, of which each is below that count.
fn behind(count: u64, fields: &[TypeId]) -> u64
    requires { All (λ id. id < count) fields.now }
    ensures upto { result ≤ count }
    ensures past { All (λ id. id < result) fields.now }
    ensures least { (fewer : ℕ) → All (λ id. id < fewer) fields.now → result ≤ fewer }
{
    let mut behind = 0;
    for field in fields {
        behind = farther(behind, *field);
    }
    behind
}

/// The id behind all fields of a body, of which each is below that count: how many of the first types make all of them.
pub fn behind_body(count: u64, body: &StructBody) -> u64
    requires { KnowsBody count (Some body.now) }
    ensures upto { result ≤ count }
    ensures past { KnowsBody result (Some body.now) }
    ensures least { (fewer : ℕ) → KnowsBody fewer (Some body.now) → result ≤ fewer }
{
    match body {
        StructBody::Opaque => 0,
        StructBody::Plain(fields) => behind(count, fields.as_slice()),
        StructBody::Packed(fields) => behind(count, fields.as_slice()),
    }
}
