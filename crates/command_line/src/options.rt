//! How an option is written.
ghost use Rattle.std.specs.Prelude.{◌≡◌};
ghost use Rattle.std.specs.Option.{option_copied};
ghost use Rattle.command_line.specs.Options.{is_dash, is_marker, flag_named, setting_named, undashed, equals_sign, name_part, value_part, option_named, word_spelling, seen};

use crate::Tool;

/// An option without a value.
#[derive(Clone, Copy)]
pub(crate) enum PlainOption {
    /// `-S`: text is written in the place of bitcode.
    Text,
    /// `--delete`: what is selected is left out, and all else kept.
    Delete,
    /// `--recursive`: what is selected is kept, and the functions that it calls.
    Recursive,
    /// `--dump`: blocks, definitions and records are told, and not only counted.
    Dump,
}

/// An option with a value.
#[derive(Clone, Copy)]
pub(crate) enum Setting {
    /// `-o`: where the output goes.
    Output,
    /// `--func`: a function that is selected.
    Function,
    /// `--glob`: a variable that is selected.
    Variable,
    /// `--alias`: an alias that is selected.
    Alias,
    /// `--max-steps`: how many steps a run may make.
    MaxSteps,
}

/// What a word is that stands where an option may stand.
#[derive(Clone, Copy)]
pub(crate) enum WordSpelling<'w> {
    /// The two dashes after which there are no options.
    Marker,
    /// An option without a value.
    Lone(PlainOption),
    /// An option with its value behind `=`.
    Full(Setting, &'w [u8]),
    /// An option whose value is the next word.
    Open(Setting),
    /// A word behind dashes that is no option of the tool, or an option with a value that takes none.
    Unknown,
    /// The name of an input, or the dash of standard input.
    Input,
}

/// Whether this is the word `-`, which names standard input or standard output.
pub fn is_dash(word: &[u8]) -> bool
    ensures { result ≡ is_dash word.now }
{
    matches!(word, b"-")
}

// The two dashes after which there are no options.
fn is_marker(word: &[u8]) -> bool
    ensures { result ≡ is_marker word.now }
{
    matches!(word, b"--")
}

fn flag_named(name: &[u8]) -> Option<PlainOption>
    ensures { result ≡ flag_named name.now }
{
    match name {
        b"S" => Some(PlainOption::Text),
        b"delete" => Some(PlainOption::Delete),
        b"recursive" => Some(PlainOption::Recursive),
        b"dump" => Some(PlainOption::Dump),
        _ => None,
    }
}

fn setting_named(name: &[u8]) -> Option<Setting>
    ensures { result ≡ setting_named name.now }
{
    match name {
        b"o" => Some(Setting::Output),
        b"func" => Some(Setting::Function),
        b"glob" => Some(Setting::Variable),
        b"alias" => Some(Setting::Alias),
        b"max-steps" => Some(Setting::MaxSteps),
        _ => None,
    }
}

// Behind one dash or two.
fn undashed(word: &[u8]) -> Option<&[u8]>
    ensures { option_copied result ≡ undashed word.now }
{
    if word.starts_with(b"--") {
        Some(&word[2..])
    } else if word.starts_with(b"-") {
        Some(&word[1..])
    } else {
        None
    }
}

fn equals_sign(option: &[u8]) -> Option<usize>
    ensures { result ≡ equals_sign option.now }
{
    option.iter().position(|byte| *byte == b'=')
}

// What stands before the first `=`, and what stands behind it.
fn parts(option: &[u8]) -> (&[u8], Option<&[u8]>)
    ensures name { result.0.now ≡ name_part option.now }
    ensures value { option_copied result.1 ≡ value_part option.now }
{
    match equals_sign(option) {
        Some(at) => (&option[..at], Some(&option[at + 1..])),
        None => (option, None),
    }
}

// An option of the tool, with the value behind its `=` where it has one.
fn option_named<'w>(tool: Tool, name: &[u8], value: Option<&'w [u8]>) -> WordSpelling<'w>
    ensures { seen result
        ≡ option_named tool (flag_named name.now) (setting_named name.now) (option_copied value.entry) }
{
    if let Some(flag) = flag_named(name) {
        return if value.is_none() && tool.has(flag) {
            WordSpelling::Lone(flag)
        } else {
            WordSpelling::Unknown
        };
    }
    match (setting_named(name), value) {
        (Some(setting), None) if tool.takes(setting) => WordSpelling::Open(setting),
        (Some(setting), Some(value)) if tool.takes(setting) => WordSpelling::Full(setting, value),
        _ => WordSpelling::Unknown,
    }
}

/// What the word is for the tool.
#[tactic(auto, unfolding(crate::specs::Options::word_spelling))]
pub(crate) fn word_spelling(tool: Tool, word: &[u8]) -> WordSpelling<'_>
    ensures { seen result ≡ word_spelling tool word.now }
{
    if is_dash(word) {
        return WordSpelling::Input;
    }
    if is_marker(word) {
        return WordSpelling::Marker;
    }
    let Some(option) = undashed(word) else {
        return WordSpelling::Input;
    };
    let (name, value) = parts(option);
    option_named(tool, name, value)
}
