//! What each word of the language is.
ghost use Rattle.std.specs.Prelude.{◌≡◌, ◌<◌, length};
ghost use Rattle.ir_terminals.specs.WordRows.{meanings_of, slot};
ghost use Rattle.ir_terminals.specs.Words.{meaning_in, words_by_role};

use crate::terminal::Terminal;
use ir_tables::{Flag, Linkage, Opcode, Predicate};

/// A word and what it is.
struct Word {
    spelling: &'static str,
    terminal: Terminal,
}

macro_rules! words {
    ($($spelling:literal $terminal:expr,)*) => {
        [$(Word { spelling: $spelling, terminal: $terminal },)*]
    };
}

/// The words but the integer types, in the order of the lists of roles.
static WORDS: [Word; 157] = words![
    "source_filename" Terminal::SourceFilename,
    "target" Terminal::Target,
    "datalayout" Terminal::DataLayout,
    "triple" Terminal::Triple,
    "type" Terminal::Type,
    "opaque" Terminal::Opaque,
    "global" Terminal::Global,
    "constant" Terminal::Constant,
    "alias" Terminal::Alias,
    "declare" Terminal::Declare,
    "define" Terminal::Define,
    "attributes" Terminal::Attributes,
    "distinct" Terminal::Distinct,
    "section" Terminal::Section,
    "align" Terminal::Align,
    "x" Terminal::X,
    "to" Terminal::To,
    "label" Terminal::LabelWord,
    "void" Terminal::Void,
    "ptr" Terminal::Ptr,
    "true" Terminal::True,
    "false" Terminal::False,
    "null" Terminal::Null,
    "undef" Terminal::Undef,
    "poison" Terminal::Poison,
    "zeroinitializer" Terminal::ZeroInitializer,
    "uwtable" Terminal::UnwindTable,
    "dso_local" Terminal::GlobalDropped,
    "dso_preemptable" Terminal::GlobalDropped,
    "default" Terminal::GlobalDropped,
    "hidden" Terminal::GlobalDropped,
    "protected" Terminal::GlobalDropped,
    "unnamed_addr" Terminal::UnnamedAddress,
    "local_unnamed_addr" Terminal::UnnamedAddress,
    "ccc" Terminal::CallingConvention,
    "fastcc" Terminal::CallingConvention,
    "coldcc" Terminal::CallingConvention,
    "zeroext" Terminal::ParameterDropped,
    "signext" Terminal::ParameterDropped,
    "noext" Terminal::ParameterDropped,
    "inreg" Terminal::ParameterDropped,
    "noalias" Terminal::ParameterDropped,
    "nocapture" Terminal::ParameterDropped,
    "nonnull" Terminal::ParameterDropped,
    "noundef" Terminal::ParameterDropped,
    "writable" Terminal::ParameterDropped,
    "returned" Terminal::ParameterDropped,
    "immarg" Terminal::ParameterDropped,
    "nest" Terminal::ParameterDropped,
    "allocptr" Terminal::ParameterDropped,
    "allocalign" Terminal::ParameterDropped,
    "dead_on_unwind" Terminal::ParameterDropped,
    "nofree" Terminal::AttributeDropped,
    "readnone" Terminal::AttributeDropped,
    "readonly" Terminal::AttributeDropped,
    "writeonly" Terminal::AttributeDropped,
    "alwaysinline" Terminal::FunctionDropped,
    "builtin" Terminal::FunctionDropped,
    "cold" Terminal::FunctionDropped,
    "convergent" Terminal::FunctionDropped,
    "hot" Terminal::FunctionDropped,
    "inlinehint" Terminal::FunctionDropped,
    "minsize" Terminal::FunctionDropped,
    "mustprogress" Terminal::FunctionDropped,
    "nobuiltin" Terminal::FunctionDropped,
    "nocallback" Terminal::FunctionDropped,
    "noduplicate" Terminal::FunctionDropped,
    "noinline" Terminal::FunctionDropped,
    "norecurse" Terminal::FunctionDropped,
    "noredzone" Terminal::FunctionDropped,
    "noreturn" Terminal::FunctionDropped,
    "nosync" Terminal::FunctionDropped,
    "nounwind" Terminal::FunctionDropped,
    "optnone" Terminal::FunctionDropped,
    "optsize" Terminal::FunctionDropped,
    "speculatable" Terminal::FunctionDropped,
    "ssp" Terminal::FunctionDropped,
    "sspreq" Terminal::FunctionDropped,
    "sspstrong" Terminal::FunctionDropped,
    "willreturn" Terminal::FunctionDropped,
    "dereferenceable" Terminal::ParameterDroppedList,
    "dereferenceable_or_null" Terminal::ParameterDroppedList,
    "sret" Terminal::ParameterDroppedList,
    "captures" Terminal::ParameterDroppedList,
    "range" Terminal::ParameterDroppedList,
    "initializes" Terminal::ParameterDroppedList,
    "nofpclass" Terminal::ParameterDroppedList,
    "memory" Terminal::FunctionDroppedList,
    "alignstack" Terminal::FunctionDroppedList,
    "allockind" Terminal::FunctionDroppedList,
    "allocsize" Terminal::FunctionDroppedList,
    "tail" Terminal::TailMark,
    "musttail" Terminal::TailMark,
    "notail" Terminal::TailMark,
    "external" Terminal::Linkage(Linkage::External),
    "private" Terminal::Linkage(Linkage::Private),
    "internal" Terminal::Linkage(Linkage::Internal),
    "available_externally" Terminal::Linkage(Linkage::AvailableExternally),
    "linkonce" Terminal::Linkage(Linkage::Linkonce),
    "linkonce_odr" Terminal::Linkage(Linkage::LinkonceOdr),
    "weak" Terminal::Linkage(Linkage::Weak),
    "weak_odr" Terminal::Linkage(Linkage::WeakOdr),
    "common" Terminal::Linkage(Linkage::Common),
    "appending" Terminal::Linkage(Linkage::Appending),
    "extern_weak" Terminal::Linkage(Linkage::ExternWeak),
    "nuw" Terminal::Flag(Flag::Nuw),
    "nsw" Terminal::Flag(Flag::Nsw),
    "exact" Terminal::Flag(Flag::Exact),
    "disjoint" Terminal::Flag(Flag::Disjoint),
    "nneg" Terminal::Flag(Flag::Nneg),
    "samesign" Terminal::Flag(Flag::Samesign),
    "inbounds" Terminal::Flag(Flag::Inbounds),
    "nusw" Terminal::Flag(Flag::Nusw),
    "volatile" Terminal::Flag(Flag::Volatile),
    "eq" Terminal::Predicate(Predicate::Eq),
    "ne" Terminal::Predicate(Predicate::Ne),
    "ugt" Terminal::Predicate(Predicate::Ugt),
    "uge" Terminal::Predicate(Predicate::Uge),
    "ult" Terminal::Predicate(Predicate::Ult),
    "ule" Terminal::Predicate(Predicate::Ule),
    "sgt" Terminal::Predicate(Predicate::Sgt),
    "sge" Terminal::Predicate(Predicate::Sge),
    "slt" Terminal::Predicate(Predicate::Slt),
    "sle" Terminal::Predicate(Predicate::Sle),
    "add" Terminal::Opcode(Opcode::Add),
    "sub" Terminal::Opcode(Opcode::Sub),
    "mul" Terminal::Opcode(Opcode::Mul),
    "udiv" Terminal::Opcode(Opcode::UDiv),
    "sdiv" Terminal::Opcode(Opcode::SDiv),
    "urem" Terminal::Opcode(Opcode::URem),
    "srem" Terminal::Opcode(Opcode::SRem),
    "shl" Terminal::Opcode(Opcode::Shl),
    "lshr" Terminal::Opcode(Opcode::LShr),
    "ashr" Terminal::Opcode(Opcode::AShr),
    "and" Terminal::Opcode(Opcode::And),
    "or" Terminal::Opcode(Opcode::Or),
    "xor" Terminal::Opcode(Opcode::Xor),
    "icmp" Terminal::Opcode(Opcode::ICmp),
    "trunc" Terminal::Opcode(Opcode::Trunc),
    "zext" Terminal::Opcode(Opcode::ZExt),
    "sext" Terminal::Opcode(Opcode::SExt),
    "ptrtoint" Terminal::Opcode(Opcode::PtrToInt),
    "inttoptr" Terminal::Opcode(Opcode::IntToPtr),
    "select" Terminal::Opcode(Opcode::Select),
    "freeze" Terminal::Opcode(Opcode::Freeze),
    "phi" Terminal::Opcode(Opcode::Phi),
    "load" Terminal::Opcode(Opcode::Load),
    "store" Terminal::Opcode(Opcode::Store),
    "alloca" Terminal::Opcode(Opcode::Alloca),
    "getelementptr" Terminal::Opcode(Opcode::GetElementPtr),
    "call" Terminal::Opcode(Opcode::Call),
    "extractvalue" Terminal::Opcode(Opcode::ExtractValue),
    "insertvalue" Terminal::Opcode(Opcode::InsertValue),
    "ret" Terminal::Opcode(Opcode::Ret),
    "br" Terminal::Opcode(Opcode::Br),
    "switch" Terminal::Opcode(Opcode::Switch),
    "unreachable" Terminal::Opcode(Opcode::Unreachable),
];

/// For each number that a word may have, the index of the row with that number's word, or of some row where none has it.
static ROWS: [u8; 256] = [
    21, 82, 79, 0, 0, 18, 0, 153, 97, 9, 27, 41, 65, 91, 14, 47, 145, 0, 33, 8, 0, 123, 28, 0, 67,
    0, 132, 107, 133, 58, 57, 0, 0, 0, 55, 42, 122, 0, 103, 0, 0, 31, 0, 0, 134, 0, 154, 102, 64,
    38, 0, 12, 148, 0, 0, 22, 0, 52, 84, 43, 61, 0, 1, 85, 156, 56, 98, 53, 136, 66, 149, 48, 60,
    0, 44, 147, 0, 0, 117, 13, 0, 26, 23, 104, 137, 0, 114, 5, 155, 0, 87, 88, 3, 116, 0, 54, 37,
    113, 0, 108, 0, 0, 77, 0, 110, 127, 129, 0, 62, 76, 0, 63, 32, 106, 140, 16, 151, 125, 7, 35,
    139, 24, 112, 73, 70, 0, 78, 0, 141, 0, 0, 83, 59, 119, 4, 105, 0, 0, 135, 95, 126, 92, 0, 0,
    0, 0, 25, 72, 118, 0, 71, 40, 94, 20, 138, 46, 152, 19, 0, 0, 111, 0, 0, 74, 0, 142, 0, 15, 0,
    51, 0, 0, 0, 34, 0, 101, 0, 17, 0, 0, 0, 0, 0, 96, 100, 0, 0, 0, 0, 0, 124, 0, 0, 0, 0, 2, 0,
    0, 0, 68, 146, 29, 45, 0, 0, 0, 0, 69, 0, 0, 30, 0, 0, 0, 0, 144, 0, 36, 0, 0, 6, 115, 121, 0,
    0, 0, 93, 0, 0, 109, 50, 0, 0, 89, 90, 49, 0, 120, 81, 80, 131, 0, 0, 75, 0, 143, 86, 10, 39,
    128, 130, 150, 11, 0, 99, 0,
];

/// What a first byte adds to the number of a word, by its last five bits.
static FIRST: [u8; 32] = [
    0, 5, 0, 0, 6, 40, 9, 1, 6, 71, 0, 0, 3, 16, 0, 53, 38, 0, 51, 3, 42, 115, 0, 10, 4, 0, 9, 0,
    0, 0, 0, 0,
];

/// The number of a word: no two words of the rows have the same.
fn slot_of(word: &[u8]) -> usize
    requires { 0 < length word.now }
    ensures slot { result ≡ slot word.now }
    ensures small { result < 256 }
{
    let count = word.len();
    let first = usize::from(FIRST[usize::from(word[0]) % 32]);
    let third = usize::from(word[count / 3]);
    let half = usize::from(word[count / 2]);
    let last = usize::from(word[count - 1]);
    (first + 3 * third + 8 * half + last + 3 * (count % 256)) % 256
}

/// The rows of the words.
fn rows() -> &'static [Word]
    ensures { meanings_of result.now ≡ words_by_role }
{
    &WORDS
}

/// What the word is by the rows. One row alone is compared with it.
#[inline(always)]
pub(crate) fn listed_terminal(word: &[u8]) -> Terminal
    requires { 0 < length word.now }
    ensures { result ≡ meaning_in words_by_role word.now }
{
    let rows = rows();
    let row = &rows[usize::from(ROWS[slot_of(word)])];
    if row.spelling.as_bytes() == word {
        row.terminal
    } else {
        Terminal::Other
    }
}
