//! Reads declarations and definitions.
ghost use Rattle.std.specs.Prelude.{map};
ghost use Rattle.ir_terminals.specs.PhraseRows.Row.{optional};
ghost use Rattle.ir_phrases.specs.Instructions.View.{block_view};
ghost use Rattle.ir_syntax.specs.Functions.{parameter_row, dots_row, parameter_step, some_parameters_row, parameter_list_row, parameters_row, head_row, metadata_row, declared_row, declaration_row, body_row, defined_row, definition_row};
ghost use Rattle.ir_syntax.specs.View.{parameter_view, parameters_view, declared_view, defined_view, head_view, item_view};
ghost use Rattle.ir_terminals.specs.Role.{class};
ghost use Rattle.ir_terminals.specs.Tokens.{local_row};
ghost use Rattle.ir_terminals.specs.Follows.{Follows};

use crate::heads::{global_words, optional_linkage};
use crate::item::{
    Declaration, Definition, FormalParameters, FunctionHead, Item, WrittenParameter,
};
use ir_phrases::constants::{begins_type, type_of};
use ir_phrases::instructions::{
    WrittenBlock, attachment, blocks_of, convention, function_attributes, parameter_attributes,
};
use ir_terminals::{Cursor, Fault, Local, Terminal};

/// `LOCAL?`
fn optional_local(cursor: &mut Cursor) -> Result<Option<Local>, Fault>
    ensures { Follows (λ _. optional class local_row) (λ x. x) cursor.old result cursor.new }
{
    if !cursor.is_class_next(Terminal::Local) {
        return Ok(None);
    }
    let local = cursor.local()?;
    Ok(Some(local))
}

/// `TYPE PDROP* LOCAL?`
#[tactic(auto, unfolding(crate::specs::Functions::parameter_core))]
fn parameter(cursor: &mut Cursor) -> Result<WrittenParameter, Fault>
    ensures { Follows parameter_row parameter_view cursor.old result cursor.new }
{
    let ty = type_of(cursor)?;
    parameter_attributes(cursor)?;
    let name = optional_local(cursor)?;
    Ok(WrittenParameter { ty, name })
}

/// `...`, where it may stand.
fn dots(cursor: &mut Cursor, may_stand: bool) -> Result<bool, Fault>
    ensures { Follows (λ _. dots_row may_stand) (λ x. x) cursor.old result cursor.new }
{
    if !may_stand {
        return Err(Fault::Refused);
    }
    cursor.take_class(Terminal::Dots)?;
    Ok(true)
}

/// `, PARAM` or `, ...`, behind these parameters, which `...` does not end.
fn one_more(
    cursor: &mut Cursor,
    may_end_in_dots: bool,
    before: FormalParameters,
) -> Result<FormalParameters, Fault>
    ensures { Follows (λ limits. parameter_step may_end_in_dots limits (parameters_view before)) parameters_view cursor.old result cursor.new }
{
    let FormalParameters {
        mut parameters,
        variadic,
    } = before;
    if variadic {
        return Err(Fault::Refused);
    }
    cursor.take_class(Terminal::Comma)?;
    if cursor.is_class_next(Terminal::Dots) {
        let variadic = dots(cursor, may_end_in_dots)?;
        return Ok(FormalParameters {
            parameters,
            variadic,
        });
    }
    parameters.push(parameter(cursor)?)?;
    Ok(FormalParameters {
        parameters,
        variadic: false,
    })
}

/// For how many parameters there is room at first, behind one that was read: most functions have no more than two.
fn first_room(cursor: &Cursor) -> usize {
    if cursor.is_class_next(Terminal::Comma) {
        2
    } else {
        1
    }
}

/// `PARAM (, PARAM)* (, ...)?`
fn some_parameters(cursor: &mut Cursor, may_end_in_dots: bool) -> Result<FormalParameters, Fault>
    ensures { Follows (some_parameters_row may_end_in_dots) parameters_view cursor.old result cursor.new }
{
    let first = parameter(cursor)?;
    let mut parameters = Vec::with_capacity(cursor.alloc(), first_room(cursor))?;
    parameters.push(first)?;
    let mut all = FormalParameters {
        parameters,
        variadic: false,
    };
    'parameters: while cursor.is_class_next(Terminal::Comma) {
        all = one_more(cursor, may_end_in_dots, all)?;
    }
    all.parameters.shrink_to_fit();
    Ok(all)
}

/// `PARAM,*`, which may end in `...` where that may stand.
fn parameter_list(cursor: &mut Cursor, may_end_in_dots: bool) -> Result<FormalParameters, Fault>
    ensures { Follows (parameter_list_row may_end_in_dots) parameters_view cursor.old result cursor.new }
{
    if cursor.is_class_next(Terminal::Dots) {
        let variadic = dots(cursor, may_end_in_dots)?;
        return Ok(FormalParameters {
            parameters: Vec::new(cursor.alloc()),
            variadic,
        });
    }
    if begins_type(cursor) {
        return some_parameters(cursor, may_end_in_dots);
    }
    Ok(FormalParameters {
        parameters: Vec::new(cursor.alloc()),
        variadic: false,
    })
}

/// `( PARAM,* )`
#[tactic(auto, unfolding(crate::specs::Functions::parameters_core))]
fn parameters(cursor: &mut Cursor, may_end_in_dots: bool) -> Result<FormalParameters, Fault>
    ensures { Follows (parameters_row may_end_in_dots) parameters_view cursor.old result cursor.new }
{
    cursor.take_class(Terminal::OpenParenthesis)?;
    let parameters = parameter_list(cursor, may_end_in_dots)?;
    cursor.take_class(Terminal::CloseParenthesis)?;
    Ok(parameters)
}

/// `LINKAGE? GDROP* CC? PDROP* TYPE GLOBAL`
#[tactic(auto, unfolding(crate::specs::Functions::head_core))]
fn head(cursor: &mut Cursor) -> Result<FunctionHead, Fault>
    ensures { Follows head_row head_view cursor.old result cursor.new }
{
    let linkage = optional_linkage(cursor)?;
    global_words(cursor)?;
    convention(cursor)?;
    parameter_attributes(cursor)?;
    let returns = type_of(cursor)?;
    let name = cursor.global_name()?;
    Ok(FunctionHead {
        linkage,
        returns,
        name,
    })
}

/// `MD*`
fn metadata(cursor: &mut Cursor) -> Result<(), Fault>
    ensures { Follows (λ _. metadata_row) (λ x. x) cursor.old result cursor.new }
{
    'metadata: while cursor.is_class_next(Terminal::MetaName) {
        attachment(cursor)?;
    }
    Ok(())
}

/// `( PARAM,* ) FDROP*`
#[tactic(auto, unfolding(crate::specs::Functions::declared_core))]
fn declared_behind(cursor: &mut Cursor) -> Result<FormalParameters, Fault>
    ensures { Follows declared_row declared_view cursor.old result cursor.new }
{
    let formal = parameters(cursor, true)?;
    function_attributes(cursor)?;
    Ok(formal)
}

/// `declare MD* LINKAGE? GDROP* CC? PDROP* TYPE GLOBAL ( PARAM,* ) FDROP*`
pub fn declaration(cursor: &mut Cursor) -> Result<Item, Fault>
    ensures { Follows declaration_row item_view cursor.old result cursor.new }
{
    let place = cursor.take_class(Terminal::Declare)?;
    metadata(cursor)?;
    let head = head(cursor)?;
    let formal = declared_behind(cursor)?;
    let declaration = Box::new(cursor.alloc(), Declaration { head, formal })?;
    Ok(Item::Declaration { place, declaration })
}

/// `FDROP* MD* { BLOCK+ }`
#[tactic(auto, unfolding(crate::specs::Functions::body_core))]
fn body(cursor: &mut Cursor) -> Result<Vec<WrittenBlock>, Fault>
    ensures { Follows body_row (λ blocks. map block_view blocks.items) cursor.old result cursor.new }
{
    function_attributes(cursor)?;
    metadata(cursor)?;
    blocks_of(cursor)
}

/// What stands behind the name of a definition.
#[derive(Drop)]
struct Defined {
    parameters: FormalParameters,
    blocks: Vec<WrittenBlock>,
}

/// `( PARAM,* ) FDROP* MD* { BLOCK+ }`
#[tactic(auto, unfolding(crate::specs::Functions::defined_core))]
fn defined_behind(cursor: &mut Cursor) -> Result<Defined, Fault>
    ensures { Follows defined_row defined_view cursor.old result cursor.new }
{
    let parameters = parameters(cursor, cursor.limits().with_left_out)?;
    let blocks = body(cursor)?;
    Ok(Defined { parameters, blocks })
}

/// `define LINKAGE? GDROP* CC? PDROP* TYPE GLOBAL ( PARAM,* ) FDROP* MD* { BLOCK+ }`
pub fn definition(cursor: &mut Cursor) -> Result<Item, Fault>
    ensures { Follows definition_row item_view cursor.old result cursor.new }
{
    let place = cursor.take_class(Terminal::Define)?;
    let head = head(cursor)?;
    let Defined { parameters, blocks } = defined_behind(cursor)?;
    let FormalParameters { parameters, .. } = parameters;
    let definition = Definition {
        head,
        parameters,
        blocks,
    };
    let definition = Box::new(cursor.alloc(), definition)?;
    Ok(Item::Definition { place, definition })
}
