//! What holds of the commands. Each function is a law: it does nothing, and its contract says what holds.

ghost use Rattle.tool_commands.specs.Copy.{CopiesAreOneFile, CopiesHaveOneLimit};
ghost use Rattle.tool_commands.specs.PlainRuns.{DriverPassesOnAll, NodesPassOnTheirInputs, ResultsAreOfTheInputs, ResultsAreOfThePassed};
ghost use Rattle.tool_commands.specs.WorkLaws.{SourcesAreRead, PlainIsOfItsSources, CopyIsOfItsStack, InfoIsOfItsStack, LoadsAreNoSizes};

/// `copy`, which is the plain run of one file node, writes one file where its stack has a frame, and else none: `<prefix>copy_000.nc`, the layout of all
/// the stack's arrays in form classic. The one limit that it can pass is the length of that file.
pub fn copies_are_one_file()
    ensures files { CopiesAreOneFile }
    ensures limit { CopiesHaveOneLimit }
{}

/// In the plain run each node acts on its share of what goes out of its input, and on nothing else.
pub fn plain_runs_go_by_inputs()
    ensures driver { DriverPassesOnAll }
    ensures passed { NodesPassOnTheirInputs }
    ensures results { ResultsAreOfTheInputs }
    ensures arrays { ResultsAreOfThePassed }
{}

/// Where the files of a command lead to its work, it is that of a graph and a stack that were read, and pass no limit. A limit that a graph passes over a
/// stack is none of the sizes of their files.
pub fn works_are_of_what_was_read()
    ensures sources { SourcesAreRead }
    ensures plain { PlainIsOfItsSources }
    ensures copy { CopyIsOfItsStack }
    ensures info { InfoIsOfItsStack }
    ensures limits { LoadsAreNoSizes }
{}
