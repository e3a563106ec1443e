//! Variables, aliases, functions and blocks of an arena, by the ids of their parts. Those of a text are in `ir_syntax` and
//! `ir_phrases::instructions`.

ghost use Rattle.std.specs.Prelude.{◌≡◌, ◌<◌, ◌^◌, length, slice_get, Some};
ghost use Rattle.module_arena.specs.Lists.{value_names, function_blocks};

use crate::{AliasId, BlockId, ConstId, Ending, FunctionId, Inst, ValueId, VariableId};
use ir_base::{ItemList, Name};
use ir_tables::Linkage;
use type_table::{TypeId, TypeList};

/// What a global name stands for.
///
/// ```
/// GlobalId::Variable(a) // what `@a` stands for, where `a` is the id of a variable of that name
/// ```
#[derive(Clone, Copy, Debug, PartialEq, Eq, Hash)]
pub enum GlobalId {
    /// A variable.
    Variable(VariableId),
    /// A function.
    Function(FunctionId),
    /// An alias.
    Alias(AliasId),
}

/// What a parameter, a block or a result is called within its function.
///
/// ```
/// LocalName::Named(name) // of `%x`, or of the label `x:`, where the name is `x`
/// LocalName::Numbered(0) // of `%0`
/// ```
#[derive(Drop)]
pub enum LocalName {
    /// A name.
    Named(Name),
    /// A number, counted from 0.
    Numbered(u32),
}

/// Some local names, in order.
pub type LocalNameList = ItemList<LocalName>;

/// A variable (LangRef, "Global Variables").
///
/// ```
/// // `@a = constant i32 7, align 4`, where `word` is the id of `i32` and `seven` that of the constant 7.
/// let (alignment, initialiser) = (Some(4), Some(seven));
/// Variable { name, linkage: Linkage::External, constant: true, ty: word, alignment, initialiser }
/// ```
#[derive(Drop)]
pub struct Variable {
    pub name: Name,
    pub linkage: Linkage,
    pub constant: bool,
    pub ty: TypeId,
    pub alignment: Option<u32>,
    /// There exactly where the variable is defined.
    pub initialiser: Option<ConstId>,
}

/// What an alias says of its target.
///
/// ```
/// AliasType::Plain(word) // of `@b = alias i32, ptr @a`, where `word` is the id of `i32`
/// AliasType::Function(word, parameters, false) // of `@g = alias i32 (ptr), ptr @f`: `ptr` alone
/// ```
#[derive(Drop)]
pub enum AliasType {
    /// The type of a variable.
    Plain(TypeId),
    /// What a function returns, its parameters, and whether it is variadic.
    Function(TypeId, TypeList, bool),
}

/// A further name of a variable or function (LangRef, "Aliases").
///
/// ```
/// // `@b = alias i32, ptr @a`, where `a` is the id of that variable.
/// let target = Some(GlobalId::Variable(a));
/// Alias { name, linkage: Linkage::External, ty: AliasType::Plain(word), target }
/// ```
#[derive(Drop)]
pub struct Alias {
    pub name: Name,
    pub linkage: Linkage,
    pub ty: AliasType,
    pub target: Option<GlobalId>,
}

/// A parameter.
///
/// ```
/// Parameter { ty: word, name: LocalName::Named(name) } // `i32 %x`, where `name` is `x`
/// ```
#[derive(Drop)]
pub struct Parameter {
    pub ty: TypeId,
    pub name: LocalName,
}

/// The parameters of a function, in order.
pub type ParameterList = ItemList<Parameter>;

/// Some instructions, in order.
pub type InstList = ItemList<Inst>;

/// A block: instructions, and exactly one end.
///
/// ```
/// // `entry: ret void`
/// let name = LocalName::Named(entry);
/// Block { name, instructions: InstList::new(alloc), end: Ending::ReturnVoid }
/// ```
#[derive(Drop)]
pub struct Block {
    pub name: LocalName,
    pub instructions: InstList,
    pub end: Ending,
}

/// The blocks of a function, in order.
pub type BlockList = ItemList<Block>;

/// What a function does. The names of the results are in their order: the one of the value with id v is the
/// name at v less the count of parameters.
///
/// ```
/// // Of `define i32 @f(i32 %x) { ret i32 %x }`: one block, which is called 0, and no results.
/// let operand = Operand { ty, value: Value::Local(ValueId::new(0)) };
/// let name = LocalName::Numbered(0);
/// blocks.push(Block { name, instructions: InstList::new(alloc), end: Ending::Return(operand) })?;
/// let body = Body { blocks, results: LocalNameList::new(alloc) };
/// ```
#[derive(Drop)]
pub struct Body {
    pub blocks: BlockList,
    pub results: LocalNameList,
}

/// The greatest product of the blocks and the values of a function.
pub const LARGEST_PRODUCT: u64 = 2_147_483_648;

/// A function (LangRef, "Functions").
///
/// ```
/// // Of `declare i32 @printf(ptr, ...)`. A definition is declared so too, and `define` gives it its body.
/// parameters.push(Parameter { ty: pointer, name: LocalName::Numbered(0) })?;
/// Function { name, linkage: Linkage::External, result: word, parameters, variadic: true, body: None }
/// ```
#[derive(Drop)]
pub struct Function {
    pub name: Name,
    pub linkage: Linkage,
    pub result: TypeId,
    pub parameters: ParameterList,
    pub variadic: bool,
    /// There exactly where the function is defined.
    pub body: Option<Body>,
}

impl Function {
    /// How many parameters and results there are.
    pub fn value_count(&self) -> u64
        requires { length (value_names self.now) < 2 ^ 32 }
        ensures { result ≡ length (value_names self.now) }
    {
        let results = match &self.body {
            Some(body) => body.results.len(),
            None => 0,
        };
        (self.parameters.len() + results) as u64
    }

    /// What a parameter or result is called.
    pub fn value_name(&self, id: ValueId) -> &LocalName
        requires { id < length (value_names self.now) }
        ensures { slice_get (value_names self.now) id ≡ Some result.now }
    {
        let index = id.number() as usize;
        let count = self.parameters.len();
        if index < count {
            return &self.parameters.at(index).name;
        }
        let body = self.body.as_ref().unwrap();
        body.results.at(index - count)
    }

    /// How many blocks there are: none where the function is only declared.
    pub fn block_count(&self) -> u64
        ensures { result ≡ length (function_blocks self.now) }
    {
        match &self.body {
            Some(body) => body.blocks.len() as u64,
            None => 0,
        }
    }

    /// The block with that id.
    pub fn block(&self, id: BlockId) -> &Block
        requires { id < length (function_blocks self.now) }
        ensures { slice_get (function_blocks self.now) id ≡ Some result.now }
    {
        let body = self.body.as_ref().unwrap();
        body.blocks.at(id.number() as usize)
    }
}
