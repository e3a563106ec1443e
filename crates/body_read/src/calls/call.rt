//! Calls.
ghost use Rattle.std.specs.Prelude.{◌≡◌, None, Some, IfOk, if◌then◌else◌};
ghost use Rattle.std.specs.Option.{option_map};
ghost use Rattle.ir_tables.specs.declared.opcode.Opcode.TheVariants as op;
ghost use Rattle.module_arena.specs.declared.instruction.Inst.TheVariants as inst;
ghost use Rattle.record_read.specs.Fields.{texts_of};
ghost use Rattle.body_read.specs.Operands.Found.{both};
ghost use Rattle.body_read.specs.Calls.Calls.{ReadsLine, kept_call};

use crate::calls::arguments::read_arguments;
use crate::calls::head::{is_void, read_result, read_returned};
use crate::calls::line::{ReadLine, unless_broken};
use crate::calls::parameters::{Parameters, read_parameters};
use crate::constants::same;
use crate::operands::read_value;
use module_arena::{Boxed, Call, Inst, OperandList, Signature, Value, ValueId};
use record_read::{Texts, read_flag};
use std::alloc::{AllocError, Global};
use type_read::arena::ModuleReader;
use type_table::{TypeId, TypeList};

/// The parts of a call, where all of them are known.
fn call_of(
    defined: Option<ValueId>,
    returns: Option<TypeId>,
    variadic: bool,
    parameters: TypeList,
    callee: Option<Value>,
    arguments: Option<OperandList>,
) -> Option<Call>
    ensures { result ≡ option_map (kept_call defined) (both returns (both (Some variadic) (both (Some parameters) (both callee arguments)))) }
{
    let signature = Signature {
        returns: returns?,
        parameters,
        variadic,
    };
    Some(Call {
        result: defined,
        signature,
        callee: callee?,
        arguments: arguments?,
    })
}

/// `call`
fn boxed(alloc: Global, call: Option<Call>) -> Result<Option<Inst>, AllocError>
    ensures { IfOk result (λ made. made ≡ option_map (λ c. inst.Call c) call) }
{
    match call {
        Some(call) => Ok(Some(Inst::Call(Boxed::new(alloc, call)?))),
        None => Ok(None),
    }
}

/// The value that a call defines, if it has a result.
fn defined_by(is_void: bool, defined: ValueId) -> Option<ValueId>
    ensures { result ≡ (if is_void then None else Some defined) }
{
    if is_void { None } else { Some(defined) }
}

/// `call`: the type that it returns, what its result is called, whether it is variadic, its parameters, the callee, and the
/// arguments.
pub(crate) fn read_call(
    m: &mut ModuleReader<'_>,
    texts: &Texts,
    defined: ValueId,
    own: u32,
) -> Result<ReadLine, AllocError>
    ensures { IfOk result (ReadsLine (texts_of texts.now) defined own op.Call m.old m.new) }
{
    let returns = read_returned(m);
    let void = is_void(m.growing.table(), same(&returns));
    let name = read_result(m, texts, own, void)?;
    let variadic = read_flag(&mut m.reader);
    let parameters = read_parameters(m)?;
    let pointer = m.growing.pointer();
    let callee = read_value(m, &Some(pointer))?;
    let arguments = read_arguments(m, parameters.types.as_slice())?;
    let Parameters { known, .. } = parameters;
    let result_id = defined_by(void, defined);
    let call = call_of(result_id, returns, variadic, known, callee, arguments);
    let instruction = boxed(m.alloc, call)?;
    Ok(ReadLine {
        name,
        instruction: unless_broken(&m.reader, instruction),
    })
}
