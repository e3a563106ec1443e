//! Items, as a text writes them.

use ir_base::{ItemList, Place};
use ir_phrases::constants::{Constant, Type};
use ir_phrases::instructions::{SignatureTypes, WrittenBlock};
use ir_tables::Linkage;
use ir_terminals::{Integer, Local, PlacedName, PlacedText};

/// What a struct is.
///
/// ```
/// WrittenBody::Opaque // of `%s = type opaque`
/// WrittenBody::Packed(fields) // of `%s = type <{ i8, ptr }>`, whose fields are `i8` and `ptr`
/// ```
#[derive(Drop)]
pub enum WrittenBody {
    /// `opaque`: the fields are not known.
    Opaque,
    /// The fields of `{ .. }`.
    Plain(Vec<Type>),
    /// The fields of `<{ .. }>`.
    Packed(Vec<Type>),
}

/// A variable (LangRef, "Global Variables").
///
/// ```
/// // `@a = constant i32 7`, where `a` is that name with its place
/// WrittenVariable {
///     name: a,
///     linkage: None,
///     constant: true,
///     ty, // `i32`
///     initialiser: Some(seven), // `7`
///     alignment: None,
/// }
/// ```
#[derive(Drop)]
pub struct WrittenVariable {
    pub name: PlacedName,
    /// The linkage, where it is written.
    pub linkage: Option<Linkage>,
    pub constant: bool,
    pub ty: Type,
    /// There exactly where the linkage is not `external` or `extern_weak`.
    pub initialiser: Option<Constant>,
    /// The alignment, where it is written.
    pub alignment: Option<Integer>,
}

/// What an alias stands for.
///
/// ```
/// WrittenAliasType::Plain(ty) // of `@b = alias i32, ptr @a`, whose type is `i32`
/// WrittenAliasType::Function { returns, signature } // of `@g = alias i32 (ptr), ptr @f`: `i32` and `(ptr)`
/// ```
#[derive(Drop)]
pub enum WrittenAliasType {
    /// A variable of this type.
    Plain(Type),
    /// A function: its return type and its parameters.
    Function {
        returns: Type,
        signature: SignatureTypes,
    },
}

/// An alias (LangRef, "Aliases").
///
/// ```
/// // `@b = alias i32, ptr @a`, where `a` and `b` are these names with their places
/// WrittenAlias {
///     name: b,
///     linkage: None,
///     ty: WrittenAliasType::Plain(ty), // `i32`
///     target: a,
/// }
/// ```
#[derive(Drop)]
pub struct WrittenAlias {
    pub name: PlacedName,
    /// The linkage, where it is written.
    pub linkage: Option<Linkage>,
    pub ty: WrittenAliasType,
    /// The variable or function that it stands for.
    pub target: PlacedName,
}

/// A parameter of a function, and what it is called where that is written.
///
/// ```
/// // `i32 %x`, whose type is `i32`, where `x` is that name with its place
/// WrittenParameter { ty, name: Some(Local::Named(x)) }
/// ```
#[derive(Drop)]
pub struct WrittenParameter {
    pub ty: Type,
    pub name: Option<Local>,
}

/// What a function is called and gives (LangRef, "Functions").
#[derive(Drop)]
pub struct FunctionHead {
    /// The linkage, where it is written.
    pub linkage: Option<Linkage>,
    pub returns: Type,
    pub name: PlacedName,
}

/// Parameters, and whether `...` ends them.
#[derive(Drop)]
pub struct FormalParameters {
    pub parameters: Vec<WrittenParameter>,
    pub variadic: bool,
}

/// A function without its body. What its parameters are called says nothing.
///
/// ```
/// // of `declare i32 @f(ptr, ...)`, whose head is `i32 @f` and whose parameters are `ptr` alone
/// Declaration { head, formal: FormalParameters { parameters, variadic: true } }
/// ```
#[derive(Drop)]
pub struct Declaration {
    pub head: FunctionHead,
    pub formal: FormalParameters,
}

/// A function with its body, which is at least one block.
///
/// ```
/// // of `define void @f() { ret void }`, whose head is `void @f` and whose one block is `ret void`
/// Definition { head, parameters: Vec::new(alloc), blocks }
/// ```
#[derive(Drop)]
pub struct Definition {
    pub head: FunctionHead,
    pub parameters: Vec<WrittenParameter>,
    pub blocks: Vec<WrittenBlock>,
}

/// An item, with the place of its first token where no name has it.
///
/// ```
/// Item::Struct { name: s, body: WrittenBody::Opaque } // `%s = type opaque`, where `s` is that name with its place
/// Item::Variable(Box::new(alloc, variable)?) // `@a = constant i32 7`, which is that variable
/// ```
#[derive(Drop)]
pub enum Item {
    /// `source_filename`: the name of the source that the module was made from.
    SourceFilename {
        place: Place,
        text: PlacedText,
    },
    /// `target datalayout`; the place is that of `datalayout`.
    DataLayout {
        place: Place,
        text: PlacedText,
    },
    /// `target triple`; the place is that of `triple`.
    TargetTriple {
        place: Place,
        text: PlacedText,
    },
    /// A struct that has a name.
    Struct {
        name: PlacedName,
        body: WrittenBody,
    },
    /// `global` or `constant`: a variable.
    Variable(Box<WrittenVariable>),
    /// `alias`: a further name of a variable or a function.
    Alias(Box<WrittenAlias>),
    /// `declare`: a function without its body.
    Declaration {
        place: Place,
        declaration: Box<Declaration>,
    },
    /// `define`: a function with its body.
    Definition {
        place: Place,
        definition: Box<Definition>,
    },
    /// An attribute group, which is dropped.
    Attributes(Place),
    /// Metadata, which is dropped.
    Metadata(Place),
}

/// The items of a text, in order.
pub type Items = ItemList<Item>;
