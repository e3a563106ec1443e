//! The instructions of the language.
ghost use Rattle.std.specs.Prelude.{◌≡◌, ◌↔◌, Some};
ghost use Rattle.ir_tables.specs.MayHave.{may_have};
ghost use Rattle.ir_tables.specs.Opcode.{opcode_word, opcode_code, opcode_table, opcode_of_word, opcode_of_code};

use crate::table::{code_in, rows, values, word_in};
use crate::{Flag, Table, WordRow};

/// The opcode of an instruction (LangRef, "Instruction Reference").
///
/// ```
/// Opcode::Add.word() // "add"
/// Opcode::Add.code() // 1
/// ```
#[derive(Clone, Copy, Debug, PartialEq, Eq)]
pub enum Opcode {
    /// The sum.
    Add,
    /// The difference.
    Sub,
    /// The product.
    Mul,
    /// The quotient without sign, rounded toward zero.
    UDiv,
    /// The quotient with sign, rounded toward zero.
    SDiv,
    /// The remainder of the division without sign.
    URem,
    /// The remainder of the division with sign: where it is not zero it has the sign of the dividend.
    SRem,
    /// Shifts left, and fills with zeros.
    Shl,
    /// Shifts right, and fills with zeros.
    LShr,
    /// Shifts right, and fills with the sign bit.
    AShr,
    /// Bit by bit: 1 where both are 1.
    And,
    /// Bit by bit: 1 where one is 1, or both.
    Or,
    /// Bit by bit: 1 where just one is 1.
    Xor,
    /// Compares two integers or two pointers, as a predicate says, and gives an `i1`.
    ICmp,
    /// Keeps the low bits.
    Trunc,
    /// Widens with zeros.
    ZExt,
    /// Widens with copies of the sign bit.
    SExt,
    /// A pointer's address as an integer, which is cut or widened with zeros to its type.
    PtrToInt,
    /// An integer as a pointer's address, cut or widened with zeros to the width of an address.
    IntToPtr,
    /// The one or the other of two values, as an `i1` says.
    Select,
    /// Its operand, and where that is poison some value that stays the same.
    Freeze,
    /// The value that is listed for the block that control came from.
    Phi,
    /// Reads from memory.
    Load,
    /// Writes to memory.
    Store,
    /// Makes memory on the stack, which ends when its function returns.
    Alloca,
    /// The address of an element or a field, by indices; it does not touch memory.
    GetElementPtr,
    /// Calls a function.
    Call,
    /// A member of a struct or an array, by indices.
    ExtractValue,
    /// A struct or an array with one member changed, by indices.
    InsertValue,
    /// Returns from the function, with a value or without one.
    Ret,
    /// Goes on with one block, or with one of two, as an `i1` says.
    Br,
    /// Goes on with the block of the case that an integer equals, or else with the default block.
    Switch,
    /// Says that control does not come here: what happens if it does is undefined.
    Unreachable,
}

macro_rules! opcodes {
    ($read:ident $($value:ident)?) => {
        $read!($($value)? Opcode:
            Add "add" 1,
            Sub "sub" 2,
            Mul "mul" 3,
            UDiv "udiv" 4,
            SDiv "sdiv" 5,
            URem "urem" 6,
            SRem "srem" 7,
            Shl "shl" 8,
            LShr "lshr" 9,
            AShr "ashr" 10,
            And "and" 11,
            Or "or" 12,
            Xor "xor" 13,
            ICmp "icmp" 14,
            Trunc "trunc" 15,
            ZExt "zext" 16,
            SExt "sext" 17,
            PtrToInt "ptrtoint" 18,
            IntToPtr "inttoptr" 19,
            Select "select" 20,
            Freeze "freeze" 21,
            Phi "phi" 22,
            Load "load" 23,
            Store "store" 24,
            Alloca "alloca" 25,
            GetElementPtr "getelementptr" 26,
            Call "call" 27,
            ExtractValue "extractvalue" 28,
            InsertValue "insertvalue" 29,
            Ret "ret" 30,
            Br "br" 31,
            Switch "switch" 32,
            Unreachable "unreachable" 33,
        )
    };
}

const COUNT: usize = 33;

static ROWS: [WordRow; COUNT] = opcodes!(rows);

static VALUES: [Opcode; COUNT] = opcodes!(values);

fn table() -> Table<'static, COUNT>
    ensures { result ≡ opcode_table }
{
    Table::new(&ROWS)
}

impl Opcode {
    /// The word of the table.
    pub fn word(self) -> &'static str
        ensures { result.now ≡ opcode_word self }
    {
        opcodes!(word_in self)
    }

    /// The value with this word, and None exactly where the table has no such word.
    pub fn of_word(word: &[u8]) -> Option<Self>
        ensures exact { (opcode : Opcode) → (result ≡ Some opcode) ↔ (opcode_word opcode ≡ word.now) }
        ensures value { result ≡ opcode_of_word word.now }
    {
        let place = table().word_of(word)?;
        Some(VALUES[place])
    }

    /// The code of the table.
    pub fn code(self) -> u16
        ensures { result ≡ opcode_code self }
    {
        opcodes!(code_in self)
    }

    /// The value with this code, and None exactly where the table has no such code.
    pub fn of_code(code: u16) -> Option<Self>
        ensures exact { (opcode : Opcode) → (result ≡ Some opcode) ↔ (opcode_code opcode ≡ code) }
        ensures value { result ≡ opcode_of_code code }
    {
        let place = table().code_of(code)?;
        Some(VALUES[place])
    }

    /// Whether an instruction, or a constant expression, with this opcode may have the flag.
    #[tactic(auto, unfolding(crate::specs::MayHave::may_have))]
    pub fn may_have(self, flag: Flag) -> bool
        ensures { result ≡ may_have self flag }
    {
        match self {
            Opcode::Add | Opcode::Sub | Opcode::Mul | Opcode::Shl | Opcode::Trunc => {
                matches!(flag, Flag::Nuw | Flag::Nsw)
            }
            Opcode::UDiv | Opcode::SDiv | Opcode::LShr | Opcode::AShr => {
                matches!(flag, Flag::Exact)
            }
            Opcode::Or => matches!(flag, Flag::Disjoint),
            Opcode::ICmp => matches!(flag, Flag::Samesign),
            Opcode::ZExt => matches!(flag, Flag::Nneg),
            Opcode::Load | Opcode::Store => matches!(flag, Flag::Volatile),
            Opcode::GetElementPtr => matches!(flag, Flag::Inbounds | Flag::Nusw | Flag::Nuw),
            _ => false,
        }
    }
}
