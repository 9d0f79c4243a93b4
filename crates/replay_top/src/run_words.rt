//! The words of a run.

ghost use Rattle.std.specs.Prelude.{◌≡◌, map, Some, IfSome, length, string_bytes};
ghost use Rattle.std.specs.Option.{option_map};
ghost use Rattle.replay_top.specs.RunCommand.{run_command_of, named_run, IsInRange, IsReadWhereWatched};
ghost use Rattle.replay_top.specs.RunWords.{run_told, source_told};

use decimal_words::number;

/// What a run goes over.
#[derive(Clone, Copy, Debug)]
pub(crate) enum RunSource<'a> {
    /// The graph and the stack of these names.
    Named { graph: &'a str, stack: &'a str },
    /// The demo run of so many frames.
    Demo { frames: u32 },
}

/// The words of a run.
#[derive(Clone, Copy, Debug)]
pub(crate) struct RunWords<'a> {
    pub source: RunSource<'a>,
    /// It begins the name of what is written.
    pub prefix: &'a str,
    /// The log's text is written, too.
    pub logs: bool,
    /// A reader beside the run tells how far it has come.
    pub watched: bool,
}

/// The run of a graph and a stack that are read.
fn named<'a>(
    graph: &'a String,
    stack: &'a String,
    prefix: &'a String,
    logs: bool,
    watched: bool,
) -> RunWords<'a>
    ensures { run_told result ≡ named_run logs watched (string_bytes graph.now) (string_bytes stack.now) (string_bytes prefix.now) }
{
    RunWords {
        source: RunSource::Named {
            graph: graph.as_str(),
            stack: stack.as_str(),
        },
        prefix: prefix.as_str(),
        logs,
        watched,
    }
}

/// The run of four words.
fn four_in(words: &[String]) -> Option<RunWords<'_>>
    requires { length words.now ≡ 4 }
    ensures told { option_map run_told result ≡ run_command_of (map string_bytes words.now) }
    ensures sound { IfSome result (λ w. IsInRange (source_told w.source)) }
    ensures watched { IfSome result (λ w. IsReadWhereWatched (run_told w)) }
{
    match words {
        [command, graph, stack, prefix] if command.as_str() == "run" => {
            Some(named(graph, stack, prefix, false, false))
        }
        [command, graph, stack, prefix] if command.as_str() == "run-log" => {
            Some(named(graph, stack, prefix, true, false))
        }
        [command, graph, stack, prefix] if command.as_str() == "watch" => {
            Some(named(graph, stack, prefix, false, true))
        }
        _ => None,
    }
}

/// The run of two words.
fn two_in(words: &[String]) -> Option<RunWords<'_>>
    requires { length words.now ≡ 2 }
    ensures told { option_map run_told result ≡ run_command_of (map string_bytes words.now) }
    ensures sound { IfSome result (λ w. IsInRange (source_told w.source)) }
    ensures watched { IfSome result (λ w. IsReadWhereWatched (run_told w)) }
{
    match words {
        [command, frames] if command.as_str() == "demo" => Some(RunWords {
            source: RunSource::Demo {
                frames: number(frames.as_str(), 4, 1, 4096)?,
            },
            prefix: "demo_",
            logs: false,
            watched: false,
        }),
        _ => None,
    }
}

/// The run that the words ask for, or None where they ask for none with its number of words, each spelled as it wants.
pub(crate) fn run_in(words: &[String]) -> Option<RunWords<'_>>
    ensures told { option_map run_told result ≡ run_command_of (map string_bytes words.now) }
    ensures sound { IfSome result (λ w. IsInRange (source_told w.source)) }
    ensures watched { IfSome result (λ w. IsReadWhereWatched (run_told w)) }
{
    let count = words.len();
    if count == 2 {
        two_in(words)
    } else if count == 4 {
        four_in(words)
    } else {
        None
    }
}
