//! The words of the command line.

ghost use Rattle.std.specs.Prelude.{◌≡◌, ◌≢◌, Some, IfSome, length, map, string_bytes};
ghost use Rattle.std.specs.Option.{option_map};
ghost use Rattle.decimal_words.specs.Numbers.{integer_of, number_of};
ghost use Rattle.graph_conf.specs.Keys.{meaning_in};
ghost use Rattle.graph_conf.specs.Nodes.{sample_types};
ghost use Rattle.tool_commands.specs.Command.{checked_rule, command_of, correct_rule, gen_rule, word_number};
ghost use Rattle.nd_orient.specs.Correction.{IsCorrectRule};
ghost use Rattle.nd_stack.specs.Generated.{gen_fault};
ghost use Rattle.nd_stack.specs.declared.generated.GenFault.TheVariants as faults;
ghost use Rattle.tool_commands.specs.Words.{command_told, IsSound};

use decimal_words::{integer, number};
use graph_conf::sample_type_named;
use nd_base::SampleType;
use nd_orient::CorrectRule;
use nd_series::{are_regions, parse_length};
use nd_stack::{GenFault, gen_fault};

/// A stack that is made by a rule: so many frames of a width and a height in samples of a type, from a start of the generator on.
#[derive(Clone, Copy, Debug, PartialEq, Eq)]
pub struct GenRule {
    pub frames: u32,
    pub width: u32,
    pub height: u32,
    pub kind: SampleType,
    pub start: u32,
}

/// A command with its words.
#[derive(Clone, Copy, Debug)]
pub(crate) enum Command<'a> {
    /// Copies the stack of this name; the prefix begins the name of what is written.
    Copy {
        stack: &'a str,
        prefix: &'a str,
    },
    /// Runs the graph of this name over the stack, in one thread.
    Plain {
        graph: &'a str,
        stack: &'a str,
        prefix: &'a str,
    },
    /// Prints what the stack is.
    Info {
        stack: &'a str,
    },
    /// Writes a stack that a rule makes under a name.
    Gen {
        rule: GenRule,
        name: &'a str,
    },
    /// Writes the stack, oriented by a mode of 0 to 7, under a name.
    Orient {
        mode: u32,
        stack: &'a str,
        name: &'a str,
    },
    /// Writes the stack, corrected by the first frame of another one, under a name.
    Correct {
        rule: CorrectRule,
        dark: &'a str,
        stack: &'a str,
        name: &'a str,
    },
    /// Writes the statistics of these regions over the last frames of the stack under a name, as a text.
    Series {
        most: u32,
        regions: &'a str,
        stack: &'a str,
        name: &'a str,
    },
}

/// The rule of a made stack in its words, or None where they spell none that is within its ranges.
fn gen_rule(frames: &str, width: &str, height: &str, kind: &str, start: &str) -> Option<GenRule>
    ensures sound { IfSome result (λ r. gen_fault r.frames r.width r.height r.kind ≢ Some faults.GenRange) }
    ensures value { result ≡ gen_rule (word_number frames.now) (word_number width.now) (word_number height.now) (meaning_in sample_types kind.now)
        (number_of 10 0 2147483647 start.now) }
{
    let rule = GenRule {
        frames: number(frames, 10, 0, u32::MAX)?,
        width: number(width, 10, 0, u32::MAX)?,
        height: number(height, 10, 0, u32::MAX)?,
        kind: sample_type_named(kind)?,
        start: number(start, 10, 0, 2_147_483_647)?,
    };
    match gen_fault(rule.frames, rule.width, rule.height, rule.kind) {
        Some(GenFault::GenRange) => None,
        _ => Some(rule),
    }
}

/// The rule, or None where it divides by a number below 1, or its range is empty.
fn checked_rule(rule: CorrectRule) -> Option<CorrectRule>
    ensures value { result ≡ checked_rule rule }
    ensures sound { IfSome result IsCorrectRule }
{
    if 0 < rule.den && !(rule.high < rule.low) {
        Some(rule)
    } else {
        None
    }
}

/// The rule of a correction in its words, or None where they spell none.
fn correct_rule(offset: &str, num: &str, den: &str, low: &str, high: &str) -> Option<CorrectRule>
    ensures sound { IfSome result IsCorrectRule }
    ensures value { result ≡ correct_rule (integer_of offset.now) (integer_of num.now) (integer_of den.now) (integer_of low.now) (integer_of high.now) }
{
    checked_rule(CorrectRule {
        offset: integer(offset)?,
        num: integer(num)?,
        den: integer(den)?,
        low: integer(low)?,
        high: integer(high)?,
    })
}

/// The command of two words.
fn two_in(words: &[String]) -> Option<Command<'_>>
    requires { length words.now ≡ 2 }
    ensures told { option_map command_told result ≡ command_of (map string_bytes words.now) }
    ensures sound { IfSome result IsSound }
{
    match words {
        [command, stack] if command.as_str() == "info" => Some(Command::Info {
            stack: stack.as_str(),
        }),
        _ => None,
    }
}

/// The command of three words.
fn three_in(words: &[String]) -> Option<Command<'_>>
    requires { length words.now ≡ 3 }
    ensures told { option_map command_told result ≡ command_of (map string_bytes words.now) }
    ensures sound { IfSome result IsSound }
{
    match words {
        [command, stack, prefix] if command.as_str() == "copy" => Some(Command::Copy {
            stack: stack.as_str(),
            prefix: prefix.as_str(),
        }),
        _ => None,
    }
}

/// The command of four words.
fn four_in(words: &[String]) -> Option<Command<'_>>
    requires { length words.now ≡ 4 }
    ensures told { option_map command_told result ≡ command_of (map string_bytes words.now) }
    ensures sound { IfSome result IsSound }
{
    match words {
        [command, graph, stack, prefix] if command.as_str() == "plain" => Some(Command::Plain {
            graph: graph.as_str(),
            stack: stack.as_str(),
            prefix: prefix.as_str(),
        }),
        [command, mode, stack, name] if command.as_str() == "orient" => Some(Command::Orient {
            mode: number(mode.as_str(), 1, 0, 7)?,
            stack: stack.as_str(),
            name: name.as_str(),
        }),
        _ => None,
    }
}

/// The command of five words.
fn five_in(words: &[String]) -> Option<Command<'_>>
    requires { length words.now ≡ 5 }
    ensures told { option_map command_told result ≡ command_of (map string_bytes words.now) }
    ensures sound { IfSome result IsSound }
{
    match words {
        [command, most, regions, stack, name] if command.as_str() == "series" => {
            let most = parse_length(most.as_str())?;
            if !are_regions(regions.as_str()) {
                return None;
            }
            Some(Command::Series {
                most,
                regions: regions.as_str(),
                stack: stack.as_str(),
                name: name.as_str(),
            })
        }
        _ => None,
    }
}

/// The command of seven words.
fn seven_in(words: &[String]) -> Option<Command<'_>>
    requires { length words.now ≡ 7 }
    ensures told { option_map command_told result ≡ command_of (map string_bytes words.now) }
    ensures sound { IfSome result IsSound }
{
    match words {
        [command, n, w, h, kind, start, name] if command.as_str() == "gen" => {
            let rule = gen_rule(
                n.as_str(),
                w.as_str(),
                h.as_str(),
                kind.as_str(),
                start.as_str(),
            )?;
            Some(Command::Gen {
                rule,
                name: name.as_str(),
            })
        }
        _ => None,
    }
}

/// The command of nine words.
fn nine_in(words: &[String]) -> Option<Command<'_>>
    requires { length words.now ≡ 9 }
    ensures told { option_map command_told result ≡ command_of (map string_bytes words.now) }
    ensures sound { IfSome result IsSound }
{
    match words {
        [command, dark, stack, name, offset, num, den, low, high]
            if command.as_str() == "correct" => {
            let rule = correct_rule(
                offset.as_str(),
                num.as_str(),
                den.as_str(),
                low.as_str(),
                high.as_str(),
            )?;
            Some(Command::Correct {
                rule,
                dark: dark.as_str(),
                stack: stack.as_str(),
                name: name.as_str(),
            })
        }
        _ => None,
    }
}

/// The command that the words are, or None where they are none with its number of words, each spelled as it wants.
pub(crate) fn command_in(words: &[String]) -> Option<Command<'_>>
    ensures told { option_map command_told result ≡ command_of (map string_bytes words.now) }
    ensures sound { IfSome result IsSound }
{
    let count = words.len();
    if count == 2 {
        two_in(words)
    } else if count == 3 {
        three_in(words)
    } else if count == 4 {
        four_in(words)
    } else if count == 5 {
        five_in(words)
    } else if count == 7 {
        seven_in(words)
    } else if count == 9 {
        nine_in(words)
    } else {
        None
    }
}
