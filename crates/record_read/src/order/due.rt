//! Functions whose bodies are due.
ghost use Rattle.std.specs.Prelude.{◌≡◌, ◌≤◌, ◌&&◌, nat_eq, length, false, slice_index_or, if◌then◌else◌};
ghost use Rattle.module_arena.specs.declared.arena.TheConstants.{COUNT_LIMIT};
ghost use Rattle.record_read.specs.Order.Due.{due_at};

/// Whether the function at that place is defined.
fn is_defined(defined: &[bool], place: usize) -> bool
    ensures { result ≡ slice_index_or defined.now place false }
{
    match defined.get(place) {
        Some(is) => *is,
        None => false,
    }
}

/// Whether a function is that whose body is the next, behind so many that are defined.
fn is_next(is_defined: bool, passed: usize, came: usize) -> bool
    ensures { result ≡ (is_defined && nat_eq passed came) }
{
    is_defined && passed == came
}

/// 1 where it holds, else 0.
fn one_where(holds: bool) -> usize
    ensures is { result ≡ (if holds then 1 else 0) }
    ensures most { result ≤ 1 }
{
    if holds { 1 } else { 0 }
}

/// The number at that place.
fn number_of(place: usize) -> u32
    requires { place ≤ COUNT_LIMIT }
    ensures { result ≡ place }
{
    place as u32
}

/// The number of the function whose body is the next, where so many bodies came: the first that is defined and has none.
/// Functions are numbered from 0, and at most 262,144.
pub fn next_due(defined: &[bool], came: usize) -> Option<u32>
    requires { length defined.now ≤ COUNT_LIMIT }
    ensures { result ≡ due_at defined.now came 0 }
{
    let count = defined.len();
    let mut passed: usize = 0;
    'functions: for place in 0..count {
        let is = is_defined(defined, place);
        if is_next(is, passed, came) {
            return Some(number_of(place));
        }
        passed += one_where(is);
    }
    None
}
