//! A module that is run.
ghost use Rattle.std.specs.Prelude.{◌≡◌, ◌<◌, IfOk, IsOk, None, Some, length, replicate, slice_get};
ghost use Rattle.module_arena.specs.View.{module_of};
ghost use Rattle.run_names.specs.declared.callee.CalleeRef.TheVariants as callees;
ghost use Rattle.run_names.specs.Told.{HasCode, alone, callee_seen};
ghost use Rattle.run_decode.specs.Body.Bodies.{Decoded};
ghost use Rattle.run_rules.specs.Action.{Signature};
ghost use Rattle.run_rules.specs.Calls.{same_signature};
ghost use Rattle.run_rules.specs.Look.{table};
ghost use Rattle.run_decode.specs.Signatures.Met.{known};
ghost use Rattle.run_acts.specs.Program.Loaded.{HasHead, IsBody, IsReady, Keeps, nothing_ready};

use crate::program::told::{body_of, head_of};
use module_arena::{Checked, Function, FunctionId};
use run_decode::body::ActionBody;
use run_decode::signatures::Signatures;
use run_names::{CalleeRef, Names};
use std::alloc::{AllocError, Global};
use std::marker::Model;
use type_table::TypeTable;

/// What a call asks of a function: the number of its function type among those that the run has met, and how many leaves its frame has.
///
/// ```
/// FrameNeeds { signature: 0, leaves: 2 } // of the first function type that was met, and two leaves in a frame
/// ```
#[derive(Clone, Copy)]
pub struct FrameNeeds {
    pub signature: u32,
    pub leaves: u64,
}

/// A module that is run. A clause sees its lists, the function types that were met, and the bodies that are there.
#[derive(Drop)]
pub struct Program<'m> {
    alloc: Global,
    names: Names<'m>,
    signatures: Signatures<'m>,
    heads: Vec<Option<FrameNeeds>>,
    bodies: Vec<Option<ActionBody<'m>>>,
}

impl<'m> Model for Program<'m> {
    ghost use Rattle.run_acts.specs.Program.Loaded.{IsLoaded, Loaded};

    ghost Value = { Loaded };

    ghost view = { λ p. record { lists = p.names; met = p.signatures; bodies = p.bodies.items } };

    ghost invariant = { λ p. IsLoaded p.names p.signatures p.heads.items p.bodies.items };
}

/// Room for something of each function, and nothing yet.
fn none_yet<T: Drop>(alloc: Global, count: u32) -> Result<Vec<Option<T>>, AllocError>
    ensures { IfOk result (λ room. room.items ≡ replicate count None) }
{
    let mut room = Vec::with_capacity(alloc, count as usize)?;
    'functions: for _function in 0..count {
        room.push(None)?;
    }
    Ok(room)
}

impl<'m> Program<'m> {
    /// A module of which nothing is decoded yet. It is refused for want of memory alone.
    pub fn new(alloc: Global, names: Names<'m>) -> Result<Program<'m>, AllocError>
        ensures { IfOk result (λ program. program ≡ nothing_ready names.entry) }
    {
        let module: &'m Checked = names.program();
        let count = module.arena().function_count();
        let signatures = Signatures::new(alloc, module);
        let heads = none_yet(alloc, count)?;
        let bodies = none_yet(alloc, count)?;
        let program = Program {
            alloc,
            names,
            signatures,
            heads,
            bodies,
        };
        Ok(program)
    }

    /// Where memory comes from.
    pub fn alloc(&self) -> Global {
        self.alloc
    }

    /// The types of the module.
    #[inline]
    pub fn types(&self) -> &TypeTable
        ensures { result.now ≡ self.now.lists.table }
    {
        self.names.program().arena().types()
    }

    /// A function of the module.
    pub fn function(&self, id: FunctionId) -> &Function
        requires { id < length self.now.lists.functions }
        ensures function { slice_get self.now.lists.functions id ≡ Some result.now }
        ensures result_known { result.now.result < length self.now.lists.table.types }
    {
        let arena = self.names.program().arena();
        // The types of the functions of an arena are types of the arena.
        let _count = arena.variable_count();
        arena.function(id)
    }

    /// What can be called at an address.
    #[inline]
    pub fn callee(&self, address: u64) -> CalleeRef
        ensures value { callee_seen (alone (module_of self.now.lists)) result ≡ table (alone (module_of self.now.lists)) address }
        ensures code { HasCode self.now.lists result }
    {
        self.names.callee(address)
    }

    /// Whether two function types that were met have one shape.
    #[inline]
    pub fn is_same(&self, signature: u32, used: u32) -> bool
        ensures { (s t : Signature) → slice_get (known self.now.met) signature ≡ Some s → slice_get (known self.now.met) used ≡ Some t → result ≡ same_signature s t }
    {
        self.signatures.is_same(signature, used)
    }

    /// What a call asks of a function that has a body. It is refused for want of memory alone.
    #[inline]
    pub fn head(&mut self, id: FunctionId) -> Result<FrameNeeds, AllocError>
        requires { HasCode self.old.lists (callees.Code id) }
        ensures head { IfOk result (HasHead self.new id) }
        ensures keeps { Keeps self.old self.new }
    {
        if let Some(head) = self.heads[id.number() as usize] {
            return Ok(head);
        }
        let head = self.find_head(id)?;
        Ok(head)
    }

    /// The same, and it is found and kept where it is not there yet: once a function, so that this stands apart from what each call
    /// does.
    #[cold]
    #[inline(never)]
    fn find_head(&mut self, id: FunctionId) -> Result<FrameNeeds, AllocError>
        requires { HasCode self.old.lists (callees.Code id) }
        ensures head { IfOk result (HasHead self.new id) }
        ensures keeps { Keeps self.old self.new }
    {
        let place = id.number() as usize;
        if let Some(head) = self.heads[place] {
            return Ok(head);
        }
        let head = head_of(self.alloc, &self.names, &mut self.signatures, id)?;
        self.heads[place] = Some(head);
        Ok(head)
    }

    /// Decodes the body of a function that has one, unless it is there already, and tells how many leaves an edge of it sets at most. It
    /// is refused for want of memory alone, and wants none the second time.
    #[inline]
    pub fn prepare(&mut self, id: FunctionId) -> Result<u32, AllocError>
        requires code { HasCode self.old.lists (callees.Code id) }
        ensures ready { IfOk result (λ widest. (body : Decoded) × (IsReady self.new id body × (body.widest ≡ widest))) }
        ensures keeps { Keeps self.old self.new }
        ensures again { (body : Decoded) → IsReady self.old id body → IsOk result }
    {
        if let Some(body) = &self.bodies[id.number() as usize] {
            return Ok(body.widest());
        }
        let widest = self.decode(id)?;
        Ok(widest)
    }

    /// The same, and the body is decoded where it is not there yet: once a function, so that this stands apart from what each call
    /// does.
    #[cold]
    #[inline(never)]
    fn decode(&mut self, id: FunctionId) -> Result<u32, AllocError>
        requires code { HasCode self.old.lists (callees.Code id) }
        ensures ready { IfOk result (λ widest. (body : Decoded) × (IsReady self.new id body × (body.widest ≡ widest))) }
        ensures keeps { Keeps self.old self.new }
        ensures again { (body : Decoded) → IsReady self.old id body → IsOk result }
    {
        let place = id.number() as usize;
        if let Some(body) = &self.bodies[place] {
            return Ok(body.widest());
        }
        let body = body_of(self.alloc, &self.names, &mut self.signatures, id)?;
        let widest = body.widest();
        self.bodies[place] = Some(body);
        Ok(widest)
    }

    /// The body of a function that was entered.
    #[inline]
    pub fn body(&self, function: u32) -> &ActionBody<'m>
        requires { (body : Decoded) × IsReady self.now function body }
        ensures ready { IsReady self.now function result.now }
        ensures body { IsBody self.now function result.now }
    {
        match &self.bodies[function as usize] {
            Some(body) => body,
            None => unreachable!(),
        }
    }
}
