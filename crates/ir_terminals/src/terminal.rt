//! What a token is to the phrases of the language.
ghost use Rattle.std.specs.Prelude.{◌≡◌, nat_le, true};
ghost use Rattle.ir_terminals.specs.Terminal.{code, first_word_class, linkage_class};

use ir_tables::{Flag, Linkage, Opcode, Predicate};

/// The role of a token in the phrases of the language, by its kind and, for a word or a mark, by its spelling. All but the
/// last stand in the order of their codes, so that a code is found without a table.
///
/// ```
/// Terminal::Comma.code() // 12
/// Terminal::Opcode(Opcode::Add).code() // 101
/// ```
#[derive(Clone, Copy)]
pub enum Terminal {
    /// No role in any phrase: an unnamed global, a record mark, `*`, `|`, `:`, a word of no list.
    Other,
    /// `entry:`, `5:`, `"a b":`.
    Label,
    /// `42`, `-1`.
    Integer,
    /// `@main`.
    GlobalName,
    /// `%x`, and `%0` too.
    Local,
    /// `"text"`.
    Quoted,
    /// `c"text"`.
    ByteString,
    /// `!dbg`.
    MetaName,
    /// `!5`.
    MetaNumber,
    /// `!` alone.
    MetaMark,
    /// `#0`.
    Group,
    /// `=`.
    Equals,
    /// `,`.
    Comma,
    /// `(`.
    OpenParenthesis,
    /// `)`.
    CloseParenthesis,
    /// `[`.
    OpenBracket,
    /// `]`.
    CloseBracket,
    /// `{`.
    OpenBrace,
    /// `}`.
    CloseBrace,
    /// `<`.
    Less,
    /// `>`.
    Greater,
    /// `...`.
    Dots,
    /// `source_filename`.
    SourceFilename,
    /// `target`.
    Target,
    /// `datalayout`.
    DataLayout,
    /// `triple`.
    Triple,
    /// `type`.
    Type,
    /// `opaque`.
    Opaque,
    /// `global`.
    Global,
    /// `constant`.
    Constant,
    /// `declare`.
    Declare,
    /// `define`.
    Define,
    /// `attributes`.
    Attributes,
    /// `distinct`.
    Distinct,
    /// `section`.
    Section,
    /// `align`.
    Align,
    /// `x`.
    X,
    /// `to`.
    To,
    /// `label`.
    LabelWord,
    /// `void`.
    Void,
    /// `ptr`.
    Ptr,
    /// `iN`, with its width N from 1 to 128.
    IntegerType(u8),
    /// `internal`, `weak`.
    Linkage(Linkage),
    /// A word that is dropped before `global`, `constant` and a function's type: `dso_local`.
    GlobalDropped,
    /// `unnamed_addr`, `local_unnamed_addr`.
    UnnamedAddress,
    /// `ccc`, `fastcc`, `coldcc`.
    CallingConvention,
    /// A word that is dropped at a parameter alone: `noundef`.
    ParameterDropped,
    /// A word that is dropped at a parameter and behind a function: `readonly`.
    AttributeDropped,
    /// A word that is dropped behind a function alone: `nounwind`.
    FunctionDropped,
    /// A word that is dropped at a parameter with the brackets behind it: `range`.
    ParameterDroppedList,
    /// A word that is dropped behind a function with the brackets behind it: `memory`.
    FunctionDroppedList,
    /// `uwtable`, which may have brackets behind it.
    UnwindTable,
    /// `tail`, `musttail`, `notail`.
    TailMark,
    /// `true`.
    True,
    /// `false`.
    False,
    /// `null`.
    Null,
    /// `undef`.
    Undef,
    /// `poison`.
    Poison,
    /// `zeroinitializer`.
    ZeroInitializer,
    /// `nuw`, `inbounds`.
    Flag(Flag),
    /// `eq`, `slt`.
    Predicate(Predicate),
    /// `alias`.
    Alias,
    /// `add`, `ret`.
    Opcode(Opcode),
}

impl Terminal {
    /// The class of the terminal: one number for each variant, whatever it holds, but one for each opcode, which is
    /// 100 and the opcode's code.
    #[inline(always)]
    pub fn code(self) -> u8
        ensures { result ≡ code self }
    {
        match self {
            Terminal::Other => 0,
            Terminal::Label => 1,
            Terminal::Integer => 2,
            Terminal::GlobalName => 3,
            Terminal::Local => 4,
            Terminal::Quoted => 5,
            Terminal::ByteString => 6,
            Terminal::MetaName => 7,
            Terminal::MetaNumber => 8,
            Terminal::MetaMark => 9,
            Terminal::Group => 10,
            Terminal::Equals => 11,
            Terminal::Comma => 12,
            Terminal::OpenParenthesis => 13,
            Terminal::CloseParenthesis => 14,
            Terminal::OpenBracket => 15,
            Terminal::CloseBracket => 16,
            Terminal::OpenBrace => 17,
            Terminal::CloseBrace => 18,
            Terminal::Less => 19,
            Terminal::Greater => 20,
            Terminal::Dots => 21,
            _ => self.word_code(),
        }
    }

    /// The class of a word: of one that items and types have, or that stands in a list.
    #[inline(always)]
    fn word_code(self) -> u8
        requires { nat_le first_word_class (code self) ≡ true }
        ensures { result ≡ code self }
    {
        match self {
            Terminal::SourceFilename => 22,
            Terminal::Target => 23,
            Terminal::DataLayout => 24,
            Terminal::Triple => 25,
            Terminal::Type => 26,
            Terminal::Opaque => 27,
            Terminal::Global => 28,
            Terminal::Constant => 29,
            Terminal::Declare => 30,
            Terminal::Define => 31,
            Terminal::Attributes => 32,
            Terminal::Distinct => 33,
            Terminal::Section => 34,
            Terminal::Align => 35,
            Terminal::X => 36,
            Terminal::To => 37,
            Terminal::LabelWord => 38,
            Terminal::Void => 39,
            Terminal::Ptr => 40,
            Terminal::IntegerType(_) => 41,
            _ => self.listed_code(),
        }
    }

    /// The class of a word that stands in a list: a linkage, a word that is dropped, a constant, a flag, a predicate, an
    /// opcode, and of `alias`.
    #[inline(always)]
    fn listed_code(self) -> u8
        requires { nat_le linkage_class (code self) ≡ true }
        ensures { result ≡ code self }
    {
        match self {
            Terminal::Linkage(_) => 42,
            Terminal::GlobalDropped => 43,
            Terminal::UnnamedAddress => 44,
            Terminal::CallingConvention => 45,
            Terminal::ParameterDropped => 46,
            Terminal::AttributeDropped => 47,
            Terminal::FunctionDropped => 48,
            Terminal::ParameterDroppedList => 49,
            Terminal::FunctionDroppedList => 50,
            Terminal::UnwindTable => 51,
            Terminal::TailMark => 52,
            Terminal::True => 53,
            Terminal::False => 54,
            Terminal::Null => 55,
            Terminal::Undef => 56,
            Terminal::Poison => 57,
            Terminal::ZeroInitializer => 58,
            Terminal::Flag(_) => 59,
            Terminal::Predicate(_) => 60,
            Terminal::Alias => 61,
            Terminal::Opcode(opcode) => 100 + opcode.code() as u8,
            _ => unreachable!(),
        }
    }
}
