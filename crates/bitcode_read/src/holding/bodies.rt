//! Bodies, given to the functions that are to be defined, in order.
ghost use Rattle.std.specs.Prelude.{◌≡◌, ◌<◌, length, slice_get, slice_index_or, false, Some};
ghost use Rattle.std.specs.Vec.Iter.{into_iter_items};
ghost use Rattle.bitcode_read.specs.Holding.Holding.{AreUndefined, DefinesNext, NextSuits, Suits, defined_by};

use module_arena::{Arena, Body, Function, FunctionId};
use std::vec::IntoIter;

/// Whether the function at that place is to be defined.
fn is_defined(defined: &[bool], place: u32) -> bool
    ensures { result ≡ slice_index_or defined.now place false }
{
    match defined.get(place as usize) {
        Some(is) => *is,
        None => false,
    }
}

/// Gives the function of that number, which has none yet, the next body.
fn define_next(arena: &mut Arena, number: u32, rest: &mut IntoIter<Body>)
    requires known { number < length arena.old.functions }
    requires undefined { (f : Function) → slice_get arena.old.functions number ≡ Some f → f.body ≡ None }
    requires suits { (f : Function) → slice_get arena.old.functions number ≡ Some f → NextSuits (length arena.old.table.types) (length arena.old.constants) (length f.parameters) (into_iter_items rest.old) }
    ensures { DefinesNext arena.old number (into_iter_items rest.old) arena.new (into_iter_items rest.new) }
{
    match rest.next() {
        Some(body) => arena.define(FunctionId::new(number), body),
        None => {}
    }
}

/// Gives those of the first functions that are to be defined these bodies, in order. No function has one yet.
pub fn set_bodies(arena: &mut Arena, defined: &[bool], bodies: Vec<Body>)
    requires undefined { AreUndefined arena.old }
    requires suits { Suits (length arena.old.table.types) (length arena.old.constants) arena.old.functions defined.now bodies.items }
    ensures { arena.new ≡ record arena.old { functions = defined_by arena.old.functions defined.now bodies.items } }
{
    let count = arena.function_count();
    let mut rest = bodies.into_iter();
    'functions: for number in 0..count {
        if is_defined(defined, number) {
            define_next(arena, number, &mut rest);
        }
    }
}
