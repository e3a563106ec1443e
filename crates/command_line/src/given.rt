//! What the words have given so far.
ghost use Rattle.std.specs.Prelude.{◌≡◌, ◌&&◌, ◌+◌, ◌<◌, ◌≤◌, ◌^◌, IfOk};
ghost use Rattle.std.specs.Option.{option_copied};
ghost use Rattle.command_line.specs.Tools.{needs_file};
ghost use Rattle.command_line.specs.Options.{word_spelling};
ghost use Rattle.command_line.specs.Roles.{is_empty, is_program};
ghost use Rattle.command_line.specs.Commands.{input_from, arguments_from};
ghost use Rattle.command_line.specs.Reading.{Gives, Answers, Takes, nothing_given, with_flag, with_output, with_steps, with_setting, with_input, name_read, spelled_turn, turn, command_from};

use crate::number::number_of;
use crate::options::{PlainOption, Setting, WordSpelling, is_dash, word_spelling};
use crate::output::{output_name, output_or_default, output_or_standard};
use crate::{Command, OutputName, SelectionWords, Tool, UsageKind, WordsFault};
use ir_base::{Name, NameList, Text, TextList};
use std::alloc::{AllocError, Global};

/// How many steps a program may take where the words tell none.
const DEFAULT_STEPS: u64 = 1_000_000_000;

#[derive(Drop)]
pub(crate) struct GivenWords {
    tool: Tool,
    // The words that are neither options nor their values.
    others: TextList,
    output: Option<OutputName>,
    max_steps: Option<u64>,
    text: bool,
    selection: SelectionWords,
    dump: bool,
    // The two dashes were there.
    marked: bool,
    // Standard input is among the inputs.
    dash: bool,
}

// The value of the option at the word `at`, as a name.
fn name_of(alloc: Global, value: &[u8], at: u64) -> Result<Name, WordsFault>
    ensures { Answers result (name_read value.now at) }
{
    match Name::from_text(Text::from_slice(alloc, value)?) {
        Ok(name) => Ok(name),
        Err(_) => Err(WordsFault::Usage {
            kind: UsageKind::MissingValue,
            word: at,
        }),
    }
}

impl GivenWords {
    /// Nothing yet, of what is given to the tool.
    pub fn new(alloc: Global, tool: Tool) -> GivenWords
        ensures { result ≡ nothing_given tool }
    {
        GivenWords {
            tool,
            others: TextList::new(alloc),
            output: None,
            max_steps: None,
            text: false,
            selection: SelectionWords {
                functions: NameList::new(alloc),
                variables: NameList::new(alloc),
                aliases: NameList::new(alloc),
                delete: false,
                recursive: false,
            },
            dump: false,
            marked: false,
            dash: false,
        }
    }

    fn set(&mut self, flag: PlainOption)
        ensures { self.new ≡ with_flag self.old flag }
    {
        match flag {
            PlainOption::Text => self.text = true,
            PlainOption::Delete => self.selection.delete = true,
            PlainOption::Recursive => self.selection.recursive = true,
            PlainOption::Dump => self.dump = true,
        }
    }

    fn give_output(&mut self, alloc: Global, value: &[u8], at: u64) -> Result<(), WordsFault>
        ensures { Gives result self.new (with_output self.old value.now at) }
    {
        if self.output.is_some() {
            return Err(WordsFault::Usage {
                kind: UsageKind::Repeated,
                word: at,
            });
        }
        self.output = Some(output_name(alloc, value)?);
        Ok(())
    }

    // A bad number in the option's own word is told before the repeated option, and one in the next
    // word after it.
    fn give_steps(&mut self, value: &[u8], at: u64, value_at: u64) -> Result<(), WordsFault>
        ensures { Gives result self.new (with_steps self.old value.now at value_at) }
    {
        let number = number_of(value);
        if number.is_none() && value_at == at {
            return Err(WordsFault::Usage {
                kind: UsageKind::BadNumber,
                word: at,
            });
        }
        if self.max_steps.is_some() {
            return Err(WordsFault::Usage {
                kind: UsageKind::Repeated,
                word: at,
            });
        }
        if number.is_none() {
            return Err(WordsFault::Usage {
                kind: UsageKind::BadNumber,
                word: value_at,
            });
        }
        self.max_steps = number;
        Ok(())
    }

    // An option at the word `at`, whose value stands in the word `value_at`.
    fn give(
        &mut self,
        alloc: Global,
        setting: Setting,
        value: &[u8],
        at: u64,
        value_at: u64,
    ) -> Result<(), WordsFault>
        ensures { Gives result self.new (with_setting self.old setting value.now at value_at) }
    {
        match setting {
            Setting::Output => self.give_output(alloc, value, at),
            Setting::MaxSteps => self.give_steps(value, at, value_at),
            Setting::Function => {
                let name = name_of(alloc, value, at)?;
                self.selection.functions.push(name)?;
                Ok(())
            }
            Setting::Variable => {
                let name = name_of(alloc, value, at)?;
                self.selection.variables.push(name)?;
                Ok(())
            }
            Setting::Alias => {
                let name = name_of(alloc, value, at)?;
                self.selection.aliases.push(name)?;
                Ok(())
            }
        }
    }

    fn add_input(&mut self, alloc: Global, word: &[u8], at: u64) -> Result<(), WordsFault>
        ensures { Gives result self.new (with_input self.old word.now at) }
    {
        let dash = is_dash(word);
        if dash && self.dash {
            return Err(WordsFault::Usage {
                kind: UsageKind::Repeated,
                word: at,
            });
        }
        if self.tool.takes_one() && !self.others.is_empty() {
            return Err(WordsFault::Usage {
                kind: UsageKind::TooManyFiles,
                word: at,
            });
        }
        self.others.push(Text::from_slice(alloc, word)?)?;
        self.dash = dash || self.dash;
        Ok(())
    }

    // The words from here on are those of the program that `lli` runs.
    fn is_program(&self) -> bool
        ensures { result ≡ is_program self.now.tool (is_empty self.now.others) }
    {
        matches!(self.tool, Tool::Lli) && !self.others.is_empty()
    }

    /// There is no file, and the tool needs one.
    pub fn lacks_file(&self) -> bool
        ensures { result ≡ (needs_file self.now.tool && is_empty self.now.others) }
    {
        self.tool.needs_file() && self.others.is_empty()
    }

    fn take_option(
        &mut self,
        alloc: Global,
        word: &[u8],
        next: Option<&Text>,
        at: u64,
    ) -> Result<usize, WordsFault>
        requires { at + 1 < 2 ^ 64 }
        ensures { Takes result self.new
            (spelled_turn self.old (word_spelling self.old.tool word.now) word.now (option_copied next.entry) at) }
    {
        match word_spelling(self.tool, word) {
            WordSpelling::Marker => {
                self.marked = true;
                Ok(1)
            }
            WordSpelling::Lone(flag) => {
                self.set(flag);
                Ok(1)
            }
            WordSpelling::Full(setting, value) => {
                self.give(alloc, setting, value, at, at)?;
                Ok(1)
            }
            WordSpelling::Open(setting) => {
                let Some(value) = next else {
                    return Err(WordsFault::Usage {
                        kind: UsageKind::MissingValue,
                        word: at,
                    });
                };
                self.give(alloc, setting, value.bytes(), at, at + 1)?;
                Ok(2)
            }
            WordSpelling::Unknown => Err(WordsFault::Usage {
                kind: UsageKind::UnknownOption,
                word: at,
            }),
            WordSpelling::Input => {
                self.add_input(alloc, word, at)?;
                Ok(1)
            }
        }
    }

    /// Takes the word `at`, and with it the next where that is its value. Says how many it took.
    #[tactic(auto, unfolding(crate::specs::Reading::turn))]
    pub fn take(
        &mut self,
        alloc: Global,
        word: &Text,
        next: Option<&Text>,
        at: u64,
    ) -> Result<usize, WordsFault>
        requires { at + 1 < 2 ^ 64 }
        ensures { Takes result self.new (turn self.old word.now (option_copied next.entry) at) }
    {
        let word = word.bytes();
        if self.is_program() {
            self.others.push(Text::from_slice(alloc, word)?)?;
            return Ok(1);
        }
        if self.marked {
            self.add_input(alloc, word, at)?;
            return Ok(1);
        }
        self.take_option(alloc, word, next, at)
    }

    // The first file, or standard input.
    fn input(&self, alloc: Global) -> Result<Text, AllocError>
        ensures { IfOk result (λ text. text ≡ input_from self.now.others) }
    {
        if self.others.is_empty() {
            Text::from_slice(alloc, b"-")
        } else {
            Text::from_slice(alloc, self.others.at(0).bytes())
        }
    }

    /// The command that they give.
    pub fn command(self, alloc: Global) -> Result<Command, AllocError>
        ensures { IfOk result (λ command. command ≡ command_from self) }
    {
        match self.tool {
            Tool::LlvmAs => {
                let input = self.input(alloc)?;
                let output = output_or_default(alloc, self.output, &input, ".ll", ".bc")?;
                Ok(Command::Assemble { input, output })
            }
            Tool::LlvmDis => {
                let input = self.input(alloc)?;
                let output = output_or_default(alloc, self.output, &input, ".bc", ".ll")?;
                Ok(Command::Disassemble { input, output })
            }
            Tool::LlvmLink => Ok(Command::Link {
                inputs: self.others,
                output: output_or_standard(self.output),
                text: self.text,
            }),
            Tool::LlvmExtract => Ok(Command::Extract {
                input: self.input(alloc)?,
                output: output_or_standard(self.output),
                text: self.text,
                selection: self.selection,
            }),
            Tool::Lli => Ok(Command::Lli {
                input: self.input(alloc)?,
                max_steps: self.max_steps.unwrap_or(DEFAULT_STEPS),
                arguments: arguments(alloc, self.others)?,
            }),
            Tool::LlvmBcanalyzer => Ok(Command::Analyze {
                input: self.input(alloc)?,
                dump: self.dump,
            }),
        }
    }
}

// The module's name as written, or `-`, and the words behind it.
fn arguments(alloc: Global, mut words: TextList) -> Result<TextList, AllocError>
    ensures { IfOk result (λ all. all ≡ arguments_from words) }
{
    if words.is_empty() {
        words.push(Text::from_slice(alloc, b"-")?)?;
    }
    Ok(words)
}
