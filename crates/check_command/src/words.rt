//! The words of a check.

ghost use Rattle.std.specs.Prelude.{◌≡◌, map, string_bytes};
ghost use Rattle.std.specs.Option.{option_map};
ghost use Rattle.check_command.specs.CheckCommand.{check_command_of};
ghost use Rattle.check_command.specs.CheckWords.{check_told};

/// The words of a check: the names of a graph, a stack and a log, and what begins the names of the run's files.
#[derive(Clone, Copy, Debug)]
pub(crate) struct CheckWords<'a> {
    pub graph: &'a str,
    pub stack: &'a str,
    pub log: &'a str,
    pub prefix: &'a str,
}

/// The check that the words ask for, or None where they ask for none.
pub(crate) fn check_in(words: &[String]) -> Option<CheckWords<'_>>
    ensures { option_map check_told result ≡ check_command_of (map string_bytes words.now) }
{
    match words {
        [command, graph, stack, log, prefix] if command.as_str() == "check" => Some(CheckWords {
            graph: graph.as_str(),
            stack: stack.as_str(),
            log: log.as_str(),
            prefix: prefix.as_str(),
        }),
        _ => None,
    }
}
