//! What the records of variables, functions and aliases begin with.
ghost use Rattle.std.specs.Prelude.{◌≡◌, IfOk};
ghost use Rattle.std.specs.Option.{option_map};
ghost use Rattle.record_read.specs.Reader.{ReadsAs};
ghost use Rattle.record_read.specs.Fields.{texts_of};
ghost use Rattle.module_arena.specs.declared.entry.AliasType.TheVariants as kept;
ghost use Rattle.bitcode_read.specs.Head.Fronts.{IsListedFunction, IsListedType, ReadsAlias, ReadsFrontName, ReadsFunction, ReadsVariable, alias_type_front, function_type as function_layout, function_type_of};

use crate::head::types::{read_type, read_types};
use ir_base::Name;
use ir_tables::Linkage;
use module_arena::AliasType;
use record_read::{
    RecordReader, Texts, is_of_bytes, read_alignment, read_flag, read_linkage, read_name, read_text,
};
use std::alloc::{AllocError, Global};
use type_table::{TypeId, TypeList};

/// A variable up to its alignment. A name or a type is None only where a rule is broken.
#[derive(Drop)]
pub struct VariableFront {
    pub name: Option<Name>,
    pub linkage: Linkage,
    pub constant: bool,
    pub ty: Option<TypeId>,
    /// In bytes; None where none is written.
    pub alignment: Option<u32>,
}

/// A function, and whether it is defined. What is None is so only where a rule is broken.
#[derive(Drop)]
pub struct FunctionFront {
    pub name: Option<Name>,
    pub linkage: Linkage,
    pub defined: bool,
    pub returns: Option<TypeId>,
    pub variadic: bool,
    pub parameters: Option<TypeList>,
}

/// An alias up to its target. What is None is so only where a rule is broken.
#[derive(Drop)]
pub struct AliasFront {
    pub name: Option<Name>,
    pub linkage: Linkage,
    pub ty: Option<AliasType>,
}

/// The name in front of a record. A text that is none breaks rule 4. None exactly where the text is no name that is good. It
/// is refused for want of memory alone.
pub fn read_front_name(
    reader: &mut RecordReader<'_>,
    alloc: Global,
    texts: &Texts,
) -> Result<Option<Name>, AllocError>
    ensures { IfOk result (ReadsFrontName (texts_of texts.now) reader.old reader.new) }
{
    let text = read_text(reader, alloc, texts)?;
    match read_name(reader, text) {
        Some(name) => {
            is_of_bytes(&name);
            Ok(Some(name))
        }
        None => Ok(None),
    }
}

/// A variable up to its alignment, where there are so many types. It is refused for want of memory alone.
pub fn read_variable_front(
    reader: &mut RecordReader<'_>,
    alloc: Global,
    texts: &Texts,
    types: u64,
) -> Result<VariableFront, AllocError>
    ensures { IfOk result (ReadsVariable (texts_of texts.now) types reader.old reader.new) }
{
    let name = read_front_name(reader, alloc, texts)?;
    let linkage = read_linkage(reader);
    let constant = read_flag(reader);
    let ty = read_type(reader, types);
    let alignment = read_alignment(reader);
    Ok(VariableFront {
        name,
        linkage,
        constant,
        ty,
        alignment,
    })
}

/// A function, where there are so many types. It is refused for want of memory alone.
pub fn read_function_front(
    reader: &mut RecordReader<'_>,
    alloc: Global,
    texts: &Texts,
    types: u64,
) -> Result<FunctionFront, AllocError>
    ensures { IfOk result (ReadsFunction (texts_of texts.now) types reader.old reader.new) }
{
    let name = read_front_name(reader, alloc, texts)?;
    let linkage = read_linkage(reader);
    let defined = read_flag(reader);
    let returns = read_type(reader, types);
    let variadic = read_flag(reader);
    let parameters = read_types(reader, alloc, types)?;
    Ok(FunctionFront {
        name,
        linkage,
        defined,
        returns,
        variadic,
        parameters,
    })
}

/// A function type, where its parts are known.
fn function_type(
    returns: Option<TypeId>,
    variadic: bool,
    parameters: Option<TypeList>,
) -> Option<AliasType>
    ensures { result ≡ function_type_of returns variadic parameters }
{
    let returns = returns?;
    let parameters = parameters?;
    Some(AliasType::Function(returns, parameters, variadic))
}

/// A function type: what it returns, whether it is variadic, and its parameters.
fn read_function_type(
    reader: &mut RecordReader<'_>,
    alloc: Global,
    types: u64,
) -> Result<Option<AliasType>, AllocError>
    ensures { IfOk result (ReadsAs (IsListedFunction types) (function_layout types) reader.old reader.new) }
{
    let returns = read_type(reader, types);
    let variadic = read_flag(reader);
    let parameters = read_types(reader, alloc, types)?;
    Ok(function_type(returns, variadic, parameters))
}

/// A plain type, where it is known.
fn plain_type(ty: Option<TypeId>) -> Option<AliasType>
    ensures { result ≡ option_map (λ ty. kept.Plain ty) ty }
{
    Some(AliasType::Plain(ty?))
}

/// What an alias says of its target: 0 and a type, or 1 and a function type. Another number breaks rule 3.
fn read_alias_type(
    reader: &mut RecordReader<'_>,
    alloc: Global,
    types: u64,
) -> Result<Option<AliasType>, AllocError>
    ensures { IfOk result (ReadsAs (IsListedType types) (alias_type_front types) reader.old reader.new) }
{
    match reader.number() {
        0 => {
            let ty = read_type(reader, types);
            Ok(plain_type(ty))
        }
        1 => {
            let kept = read_function_type(reader, alloc, types)?;
            Ok(kept)
        }
        _ => {
            // Behind another number no operands are known: nothing more is told than rule 3.
            reader.stop(3);
            reader.stops_where_broken();
            Ok(None)
        }
    }
}

/// An alias up to its target, where there are so many types. It is refused for want of memory alone.
pub fn read_alias_front(
    reader: &mut RecordReader<'_>,
    alloc: Global,
    texts: &Texts,
    types: u64,
) -> Result<AliasFront, AllocError>
    ensures { IfOk result (ReadsAlias (texts_of texts.now) types reader.old reader.new) }
{
    let name = read_front_name(reader, alloc, texts)?;
    let linkage = read_linkage(reader);
    let ty = read_alias_type(reader, alloc, types)?;
    Ok(AliasFront { name, linkage, ty })
}
