//! Classes of bytes, and sets of them.
ghost use Rattle.std.specs.Prelude.{◌≡◌};
ghost use Rattle.ir_lexer.specs.Class.{byte_class, set_of};

use crate::class_table::CLASSES;

/// What a byte may do in a token.
#[derive(Clone, Copy)]
pub enum Class {
    /// `c`, which stands apart from the other letters since it begins a byte string.
    LetterC,
    /// Any other letter of ASCII, small or capital.
    Letter,
    /// `_`, which a word may begin with.
    Underscore,
    /// A digit, from `0` to `9`.
    Digit,
    /// `-`, which stands in names and before numbers.
    Minus,
    /// `$`, which stands in names.
    Dollar,
    /// `.`, which stands in names and, three times, as a mark of its own.
    Dot,
    /// `"`, which begins and ends what is quoted.
    Quote,
    /// `@`, which begins the name of a variable, a function or an alias.
    At,
    /// `%`, which begins the name of a value, a block or a struct.
    Percent,
    /// `!`, which begins a name or a number of metadata.
    Bang,
    /// `#`, which begins the number of an attribute group.
    Hash,
    /// `:`, which ends a label.
    Colon,
    /// A mark of one byte: `=`, `,`, `*`, `|`, or a round, square, curly or angle bracket.
    Mark,
    /// `;`, which begins a comment.
    Semicolon,
    /// The line feed, which ends a comment.
    LineFeed,
    /// A space, a tab or a carriage return.
    Blank,
    /// A byte that begins no token.
    Other,
}

/// The class of a byte, by its ASCII code.
#[inline(always)]
pub fn class_of(byte: u8) -> Class
    ensures { result ≡ byte_class byte }
{
    CLASSES[usize::from(byte)]
}

/// A set of classes.
#[derive(Clone, Copy)]
pub enum ClassSet {
    /// What goes on with an identifier or a label: letters, `_`, digits, `-`, `$` and `.`.
    InName,
    /// What goes on with a word: letters, `_` and digits.
    InWord,
    /// What an identifier begins with: letters, `_`, `-`, `$` and `.`.
    StartsName,
    /// The digits.
    Digits,
    /// The letters, `c` among them.
    Letters,
    /// The dot.
    Dots,
    /// Every byte but a quote.
    NoQuote,
    /// The quote.
    Quotes,
    /// The colon.
    Colons,
    /// Every byte but a line feed.
    InLine,
}

impl ClassSet {
    /// Whether the class is among them.
    #[inline(always)]
    pub fn has(self, class: Class) -> bool
        ensures { result ≡ set_of self class }
    {
        match self {
            ClassSet::InName => matches!(
                class,
                Class::Letter
                    | Class::LetterC
                    | Class::Underscore
                    | Class::Digit
                    | Class::Minus
                    | Class::Dollar
                    | Class::Dot
            ),
            ClassSet::InWord => matches!(
                class,
                Class::Letter | Class::LetterC | Class::Underscore | Class::Digit
            ),
            ClassSet::StartsName => matches!(
                class,
                Class::Letter
                    | Class::LetterC
                    | Class::Underscore
                    | Class::Minus
                    | Class::Dollar
                    | Class::Dot
            ),
            ClassSet::Digits => matches!(class, Class::Digit),
            ClassSet::Letters => matches!(class, Class::Letter | Class::LetterC),
            ClassSet::Dots => matches!(class, Class::Dot),
            ClassSet::NoQuote => !matches!(class, Class::Quote),
            ClassSet::Quotes => matches!(class, Class::Quote),
            ClassSet::Colons => matches!(class, Class::Colon),
            ClassSet::InLine => !matches!(class, Class::LineFeed),
        }
    }
}
