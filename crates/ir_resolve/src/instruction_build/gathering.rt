//! Ids for the parameters of a function and for the results of its instructions.
ghost use Rattle.std.specs.Prelude.{◌≡◌, ◌<◌, ◌+◌, ◌-◌, ◌^◌, ◌++◌, map, flat_map, filter_map, length, option_to_list, OnOk, IfOk};
ghost use Rattle.ir_phrases.specs.Instructions.View.{instruction_view};
ghost use Rattle.ir_syntax.specs.View.{parameter_view};
ghost use Rattle.module_arena.specs.Module as m;
ghost use Rattle.module_arena.specs.View.{local_view};
ghost use Rattle.name_rules.specs.Bodies.{instruction_in, instructions_in};
ghost use Rattle.name_rules.specs.ModuleOf.{parameters_in};
ghost use Rattle.name_rules.specs.Locals.{next_after, announced_parameter, announced_result};

use crate::instruction_build::called::{gives_result, number_behind};
use crate::instruction_build::local_ids::LocalIds;
use ir_phrases::instructions::Instruction;
use ir_syntax::WrittenParameter;
use std::alloc::{AllocError, Global};

impl<'a> LocalIds<'a> {
    /// Gives the next ids to the parameters, which are numbered from 0, and hands back the next number behind them.
    pub fn add_parameters(
        &mut self,
        alloc: Global,
        written: &'a [WrittenParameter],
    ) -> Result<u32, AllocError>
        requires { length self.old.names.items + length written.now < 2 ^ 32 - 1 }
        ensures next { IfOk result (λ next. next ≡ next_after 0 (map announced_parameter (map parameter_view written.now))) }
        ensures names { OnOk result (map local_view self.new.names.items
            ≡ map local_view self.old.names.items ++ map (λ (p : m.Parameter). p.name) (parameters_in 0 (map parameter_view written.now))) }
    {
        let mut next: u32 = 0;
        for parameter in written {
            self.add(alloc, next, &parameter.name)?;
            next = number_behind(next, &parameter.name);
        }
        Ok(next)
    }

    /// Gives the next id to the result of the instruction, where it has one, and hands back the next number behind it.
    pub fn add_result(
        &mut self,
        alloc: Global,
        next: u32,
        written: &'a Instruction,
    ) -> Result<u32, AllocError>
        requires numbers { next < 2 ^ 32 - 1 }
        requires few { length self.old.names.items < 2 ^ 32 - 1 }
        ensures next { IfOk result (λ after. after ≡ next_after next (announced_result (instruction_view written.now))) }
        ensures names { OnOk result (map local_view self.new.names.items
            ≡ map local_view self.old.names.items ++ option_to_list (instruction_in next (instruction_view written.now)).result) }
    {
        if !gives_result(written) {
            return Ok(next);
        }
        self.add(alloc, next, &written.result)?;
        Ok(number_behind(next, &written.result))
    }

    /// Gives the next ids to the results of the instructions, and hands back the next number behind them.
    pub fn add_results(
        &mut self,
        alloc: Global,
        first: u32,
        written: &'a [Instruction],
    ) -> Result<u32, AllocError>
        requires numbers { first + length written.now < 2 ^ 32 - 1 }
        requires few { length self.old.names.items + length written.now < 2 ^ 32 - 1 }
        ensures next { IfOk result (λ after. after ≡ next_after first (flat_map announced_result (map instruction_view written.now))) }
        ensures names { OnOk result (map local_view self.new.names.items
            ≡ map local_view self.old.names.items ++ filter_map (λ (i : m.Instruction). i.result) (instructions_in first (map instruction_view written.now))) }
    {
        let mut next = first;
        for instruction in written {
            next = self.add_result(alloc, next, instruction)?;
        }
        Ok(next)
    }
}
