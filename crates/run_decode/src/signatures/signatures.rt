//! Function types that a run has met.
ghost use Rattle.std.specs.Prelude.{◌≡◌, ◌<◌, ◌↔◌, All, IfOk, IsTrue, None, Some, length, slice_get};
ghost use Rattle.run_rules.specs.Action.{Signature};
ghost use Rattle.run_rules.specs.Calls.{same_signature};
ghost use Rattle.run_decode.specs.Signatures.Met.{IsNumberOf, known, none_met, written_as};
ghost use Rattle.run_decode.specs.Signatures.Numbers.{Numbers};

use crate::flat::{Pool, numbered};
use crate::signatures::alike::are_alike;
use crate::signatures::written::WrittenSignature;
use module_arena::Checked;
use std::alloc::{AllocError, Global};
use std::marker::Model;
use type_table::TypeId;

/// The function types that a run of a module has met. Two have one number exactly where they have one shape: where they are
/// equal after every struct name is replaced by its body. Numbers are counted from 0.
#[derive(Drop)]
pub struct Signatures<'m> {
    program: &'m Checked,
    written: Pool<WrittenSignature>,
    parameters: Pool<TypeId>,
}

impl<'m> Model for Signatures<'m> {
    ghost use Rattle.std.specs.Prelude.{map};
    ghost use Rattle.run_decode.specs.Signatures.Met.{AreMet, Met, type_in};

    ghost Value = { Met };

    ghost view = { λ s. record { lists = s.program.now; types = map (type_in s.parameters) s.written } };

    ghost invariant = { λ s. AreMet s.program.now s.parameters s.written };
}

impl<'m> Signatures<'m> {
    /// None yet.
    pub fn new(alloc: Global, program: &'m Checked) -> Signatures<'m>
        ensures { result ≡ none_met program.now }
    {
        Signatures {
            program,
            written: Pool::new(alloc),
            parameters: Pool::new(alloc),
        }
    }

    /// Whether the function type with that number has the shape of one as it is written.
    fn is_shape_of(
        &self,
        number: u32,
        returns: TypeId,
        parameters: &[TypeId],
        variadic: bool,
    ) -> bool
        requires number { number < length self.now.types }
        requires returns { returns < length self.now.lists.table.types }
        requires parameters { All (λ ty. ty < length self.now.lists.table.types) parameters.now }
        ensures { IsTrue result ↔ (slice_get (known self.now) number ≡ Some (written_as self.now.lists returns parameters.now variadic)) }
    {
        let types = self.program.arena().types();
        // Each type of a table has a shape.
        let _count = types.type_count();
        let known = *self.written.at(number);
        let returned = types.shape_eq(known.returns, types, returns);
        let taken = are_alike(types, self.parameters.in_span(known.parameters), parameters);
        returned & taken & (known.variadic == variadic)
    }

    /// The number of a function type, or None where none that was met has its shape. It is refused where 32 bits lack a number.
    fn find(
        &self,
        returns: TypeId,
        parameters: &[TypeId],
        variadic: bool,
    ) -> Result<Option<u32>, AllocError>
        requires returns { returns < length self.now.lists.table.types }
        requires parameters { All (λ ty. ty < length self.now.lists.table.types) parameters.now }
        ensures { IfOk result (IsNumberOf self.now (written_as self.now.lists returns parameters.now variadic)) }
    {
        let count = numbered(self.written.len())?;
        'known: for number in 0..count {
            if self.is_shape_of(number, returns, parameters, variadic) {
                return Ok(Some(number));
            }
        }
        Ok(None)
    }

    /// Meets a function type whose shape none has that was met, and gives its number.
    fn add(
        &mut self,
        returns: TypeId,
        parameters: &[TypeId],
        variadic: bool,
    ) -> Result<u32, AllocError>
        requires returns { returns < length self.old.lists.table.types }
        requires parameters { All (λ ty. ty < length self.old.lists.table.types) parameters.now }
        requires new { IsNumberOf self.old (written_as self.old.lists returns parameters.now variadic) None }
        ensures number { IfOk result (λ number. slice_get (known self.new) number ≡ Some (written_as self.old.lists returns parameters.now variadic)) }
        ensures numbers { Numbers self.old self.new }
    {
        let parameters = self.parameters.append(parameters)?;
        let number = self.written.push(WrittenSignature {
            returns,
            parameters,
            variadic,
        })?;
        Ok(number)
    }

    /// The number of a function type, which is a new one where none that was met has its shape. It is refused for want of memory
    /// alone.
    pub fn number(
        &mut self,
        returns: TypeId,
        parameters: &[TypeId],
        variadic: bool,
    ) -> Result<u32, AllocError>
        requires returns { returns < length self.old.lists.table.types }
        requires parameters { All (λ ty. ty < length self.old.lists.table.types) parameters.now }
        ensures number { IfOk result (λ number. slice_get (known self.new) number ≡ Some (written_as self.old.lists returns parameters.now variadic)) }
        ensures numbers { Numbers self.old self.new }
    {
        match self.find(returns, parameters, variadic)? {
            Some(number) => Ok(number),
            None => self.add(returns, parameters, variadic),
        }
    }

    /// Whether the function types with these numbers have one shape.
    #[inline]
    pub fn is_same(&self, first: u32, second: u32) -> bool
        ensures { (s t : Signature) → slice_get (known self.now) first ≡ Some s → slice_get (known self.now) second ≡ Some t → result ≡ same_signature s t }
    {
        // No two that were met have one shape.
        let _written = &self.written;
        first == second
    }
}
