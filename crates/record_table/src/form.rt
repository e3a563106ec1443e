//! The forms of constants.
ghost use Rattle.std.specs.Prelude.{◌≡◌};
ghost use Rattle.std.specs.Option.{option_map};
ghost use Rattle.record_table.specs.Constants.{form_code, form_of_code};
ghost use Rattle.record_table.specs.Codes.{form_view};

/// How a constant stands in a record.
///
/// ```
/// ConstantForm::Null.code() // 2
/// ConstantForm::Listed.code() // 7
/// ```
#[derive(Clone, Copy, Debug, PartialEq, Eq)]
pub enum ConstantForm {
    /// An integer.
    Number,
    /// `null`
    Null,
    /// `undef`
    Undef,
    /// `poison`
    Poison,
    /// `zeroinitializer`
    Zero,
    /// The address of a variable, function or alias.
    Global,
    /// Constants in brackets.
    Listed,
    /// A byte string.
    Bytewise,
    /// `getelementptr`
    Element,
    /// A cast.
    Converted,
    /// `add`, `sub` or `xor`.
    Computed,
}

impl ConstantForm {
    /// The form's code, counted from 1.
    pub fn code(self) -> u64
        ensures { result ≡ form_code (form_view self) }
    {
        match self {
            ConstantForm::Number => 1,
            ConstantForm::Null => 2,
            ConstantForm::Undef => 3,
            ConstantForm::Poison => 4,
            ConstantForm::Zero => 5,
            ConstantForm::Global => 6,
            ConstantForm::Listed => 7,
            ConstantForm::Bytewise => 8,
            ConstantForm::Element => 9,
            ConstantForm::Converted => 10,
            ConstantForm::Computed => 11,
        }
    }

    /// The form with this code, and None exactly where there is none.
    pub fn of_code(code: u64) -> Option<ConstantForm>
        ensures { option_map form_view result ≡ form_of_code code }
    {
        match code {
            1 => Some(ConstantForm::Number),
            2 => Some(ConstantForm::Null),
            3 => Some(ConstantForm::Undef),
            4 => Some(ConstantForm::Poison),
            5 => Some(ConstantForm::Zero),
            6 => Some(ConstantForm::Global),
            7 => Some(ConstantForm::Listed),
            8 => Some(ConstantForm::Bytewise),
            9 => Some(ConstantForm::Element),
            10 => Some(ConstantForm::Converted),
            11 => Some(ConstantForm::Computed),
            _ => None,
        }
    }
}
