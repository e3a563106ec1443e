//! The parts of items.
use crate::word::shown;
use ir_base::Place;
use ir_phrases::instructions::{Operation, WrittenBlock, WrittenEnding};
use ir_syntax::{
    Declaration, Definition, Item, WrittenAlias, WrittenAliasType, WrittenBody, WrittenVariable,
};
use ir_tables::{Flags, Linkage};
use ir_terminals::{Integer, PlacedName};
use std::alloc::AllocError;

fn name_of(placed: &PlacedName) -> &str {
    shown(placed.name.bytes())
}

fn push_place(text: &mut String, what: &str, place: Place) -> Result<(), AllocError> {
    write!(text, "{what} at {}:{}", place.line, place.column)
}

fn push_linkage(text: &mut String, linkage: Option<Linkage>) -> Result<(), AllocError> {
    match linkage {
        Some(linkage) => write!(text, "{} ", linkage.word()),
        None => Ok(()),
    }
}

fn push_alignment(text: &mut String, alignment: &Option<Integer>) -> Result<(), AllocError> {
    let Some(written) = alignment else {
        return Ok(());
    };
    match written.magnitude.to_u64() {
        Some(number) => write!(text, ", aligned {number}"),
        None => text.push_str(", aligned hugely"),
    }
}

fn push_variable(text: &mut String, variable: &WrittenVariable) -> Result<(), AllocError> {
    push_linkage(text, variable.linkage)?;
    text.push_str(if variable.constant {
        "constant "
    } else {
        "variable "
    })?;
    text.push_str(name_of(&variable.name))?;
    if variable.initialiser.is_some() {
        text.push_str(" with a value")?;
    }
    push_alignment(text, &variable.alignment)
}

fn push_parameters(text: &mut String, count: usize, variadic: bool) -> Result<(), AllocError> {
    let variadic = if variadic { ", variadic" } else { "" };
    write!(text, ", {count} parameters{variadic}")
}

fn push_alias(text: &mut String, alias: &WrittenAlias) -> Result<(), AllocError> {
    push_linkage(text, alias.linkage)?;
    write!(
        text,
        "alias {} of {}",
        name_of(&alias.name),
        name_of(&alias.target)
    )?;
    match &alias.ty {
        WrittenAliasType::Plain(_) => Ok(()),
        WrittenAliasType::Function { signature, .. } => push_parameters(
            text,
            signature.parameters.len(),
            signature.variadic,
        ),
    }
}

fn push_struct(text: &mut String, name: &PlacedName, body: &WrittenBody) -> Result<(), AllocError> {
    match body {
        WrittenBody::Opaque => push_name(text, "opaque", name),
        WrittenBody::Plain(fields) => push_fields(text, "plain", name, fields.len()),
        WrittenBody::Packed(fields) => push_fields(text, "packed", name, fields.len()),
    }
}

fn push_fields(
    text: &mut String,
    what: &str,
    name: &PlacedName,
    count: usize,
) -> Result<(), AllocError> {
    push_name(text, what, name)?;
    write!(text, " of {count}")
}

fn push_name(text: &mut String, what: &str, placed: &PlacedName) -> Result<(), AllocError> {
    let name = name_of(placed);
    write!(
        text,
        "{what} {name} at {}:{}",
        placed.place.line, placed.place.column
    )
}

fn push_declaration(
    text: &mut String,
    place: Place,
    declaration: &Declaration,
) -> Result<(), AllocError> {
    push_place(text, "declaration", place)?;
    write!(text, " of {}", name_of(&declaration.head.name))?;
    push_parameters(
        text,
        declaration.formal.parameters.len(),
        declaration.formal.variadic,
    )
}

fn push_flagged(text: &mut String, word: &str, flags: Flags) -> Result<(), AllocError> {
    write!(text, "{word} {}", flags.code())
}

// The word for an alignment that is there.
fn aligned(alignment: &Option<Integer>) -> &'static str {
    match alignment {
        Some(_) => " aligned",
        None => "",
    }
}

fn push_operation(text: &mut String, operation: &Operation) -> Result<(), AllocError> {
    match operation {
        Operation::Binary { opcode, flags, .. } => push_flagged(text, opcode.word(), *flags),
        Operation::Cast { opcode, flags, .. } => push_flagged(text, opcode.word(), *flags),
        Operation::Compare {
            flags,
            predicate,
            ..
        } => { write!(text, "icmp {} {}", flags.code(), predicate.word()) }
        Operation::Select(_) => text.push_str("select"),
        Operation::Freeze(_) => text.push_str("freeze"),
        Operation::Phi(phi) => write!(text, "phi of {}", phi.incoming.len()),
        Operation::ExtractValue(part) => write!(text, "extractvalue of {}", part.indices.len()),
        Operation::InsertValue(part) => write!(text, "insertvalue of {}", part.indices.len()),
        _ => push_access(text, operation),
    }
}

// Adds an instruction on memory, or a call.
fn push_access(text: &mut String, operation: &Operation) -> Result<(), AllocError> {
    match operation {
        Operation::Load { flags, load } => {
            write!(text, "load {}{}", flags.code(), aligned(&load.alignment))
        }
        Operation::Store { flags, store } => {
            write!(text, "store {}{}", flags.code(), aligned(&store.alignment))
        }
        Operation::Alloca(alloca) => {
            let counted = if alloca.count.is_some() {
                " counted"
            } else {
                ""
            };
            write!(text, "alloca{counted}{}", aligned(&alloca.alignment))
        }
        Operation::GetElementPtr { flags, address } => {
            let count = address.operands.len();
            write!(text, "getelementptr {} of {count}", flags.code())
        }
        Operation::Call(call) => {
            let typed = if call.signature.is_some() {
                " typed"
            } else {
                ""
            };
            write!(text, "call{typed} of {}", call.arguments.len())
        }
        _ => Ok(()),
    }
}

fn push_ending(text: &mut String, ending: &WrittenEnding) -> Result<(), AllocError> {
    match ending {
        WrittenEnding::ReturnVoid => text.push_str("ret void"),
        WrittenEnding::Return(_) => text.push_str("ret"),
        WrittenEnding::Jump(_) => text.push_str("br"),
        WrittenEnding::Branch(_) => text.push_str("br of 2"),
        WrittenEnding::Switch(switch) => write!(text, "switch of {}", switch.cases.len()),
        WrittenEnding::Unreachable => text.push_str("unreachable"),
    }
}

fn push_block(text: &mut String, block: &WrittenBlock) -> Result<(), AllocError> {
    if let Some(first) = block.instructions.first() {
        push_operation(text, &first.operation)?;
        text.push_str(", then ")?;
    }
    push_ending(text, &block.ending)
}

fn push_definition(text: &mut String, definition: &Definition) -> Result<(), AllocError> {
    write!(text, "definition {}", name_of(&definition.head.name))?;
    push_parameters(text, definition.parameters.len(), false)?;
    text.push_str(": ")?;
    match definition.blocks.first() {
        Some(block) => push_block(text, block),
        None => text.push_str("no block"),
    }
}

fn push_item(text: &mut String, item: &Item) -> Result<(), AllocError> {
    match item {
        Item::SourceFilename { place, .. } => push_place(text, "file", *place),
        Item::DataLayout { place, .. } => push_place(text, "layout", *place),
        Item::TargetTriple { place, .. } => push_place(text, "triple", *place),
        Item::Struct { name, body } => push_struct(text, name, body),
        Item::Variable(variable) => push_variable(text, variable),
        Item::Alias(alias) => push_alias(text, alias),
        Item::Declaration { place, declaration } => push_declaration(text, *place, declaration),
        Item::Definition { definition, .. } => push_definition(text, definition),
        Item::Attributes(place) => push_place(text, "attributes", *place),
        Item::Metadata(place) => push_place(text, "metadata", *place),
    }
}

/// Adds what each item is and how many parts its lists have: of a function its first block's first
/// instruction and its end.
pub fn push_parts(text: &mut String, items: &[Item]) -> Result<(), AllocError> {
    for (index, item) in items.iter().enumerate() {
        if index > 0 {
            text.push_str("; ")?;
        }
        push_item(text, item)?;
    }
    Ok(())
}
