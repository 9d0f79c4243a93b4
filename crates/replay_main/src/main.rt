//! `nd_replay`: hands the words of the command line to a top call, over real files, standard output and the
//! machine's clock, and ends with the number of its status.
#![tactic(auto)]

use edge_traits::{DiskLibrary, DiskShelf, OpenGate, OutSink, RealClock};
use replay_top::{CheckStatus, Status, check_status_text, check_top, run_top, tool_top};
use std::io::ErrorKind;
use std::process::ExitCode;
use std::rt::{Env, Files};
use std::sync::Wait;
use std::thread::Threads;
use std::{env, io, time};

const HELP: &str = "nd_replay: replays a stack of detector frames through a graph of plugins

    nd_replay run GRAPH STACK PREFIX       runs the plugins in threads of their own, with queues
                                           and a pool; writes their files, and prints what was
                                           kept, what was dropped and what came out of order
    nd_replay run-log GRAPH STACK PREFIX   does the same, and writes the run's log to
                                           <PREFIX>log.txt
    nd_replay watch GRAPH STACK PREFIX     does what run does, and prints before the report how far
                                           it had come at up to 16 moments
    nd_replay demo N                       makes N frames and runs them through three plugins that
                                           have room for all of them; needs no other file, and
                                           writes demo_stats.txt and demo_file_000.nc
    nd_replay plain GRAPH STACK PREFIX     runs them in one thread; nothing is dropped
    nd_replay check GRAPH STACK LOG PREFIX
                                           prints yes where LOG is the log of a whole run of GRAPH
                                           over STACK, and the files of PREFIX are those of it
    nd_replay copy STACK PREFIX            writes the frames of STACK to <PREFIX>copy_000.nc
    nd_replay info STACK                   prints the sample type, the dimensions, the number of
                                           frames, the ids and the attributes of STACK
    nd_replay orient MODE STACK NAME       writes the frames of STACK, turned and mirrored by MODE,
                                           to the file NAME
    nd_replay correct DARK STACK NAME OFFSET NUM DEN LOW HIGH
                                           writes the frames of STACK, corrected by the first frame
                                           of DARK, to the file NAME: each sample v over the dark
                                           sample d becomes (v - d) * NUM / DEN, cut toward zero,
                                           plus OFFSET, brought within LOW and HIGH
    nd_replay series LENGTH REGIONS STACK NAME
                                           writes the statistics of REGIONS in each of the last
                                           LENGTH frames of STACK, and the sum of each region, to
                                           the text NAME
    nd_replay gen N W H KIND START NAME    writes a stack of N made frames, W samples wide and H
                                           high, to the file NAME
    nd_replay --help                       prints this text
    nd_replay --version                    prints the version

STACK is a netCDF file in the classic or the 64-bit offset format, of at most 1 GiB. Its variable
array_data holds the frames, and the first dimension of that counts them: whole numbers of 8, 16
or 32 bits, at most 65,536 frames, of 1 to 10 dimensions and at most 67,108,864 samples each. The
variables uniqueId, timeStamp, epicsTSSec, epicsTSNsec and Attr_NAME are used where they are there.
'nccopy -k classic OLD NEW' makes one of another netCDF file, where the classic format has its types.
docs/formats.md has the rules.

GRAPH is a TOML text of at most 1 MiB with up to 32 plugins. docs/graph.md lists its keys. LOG is a
text that run-log wrote, of at most 512 MiB; docs/log.md tells how the answers of check are read.

MODE is 0 to 7: 0 to 3 turn clockwise by so many quarters, and 4 to 7 turn by MODE - 4 quarters and
then mirror left and right. DARK is such a file as STACK, and its frames have the sizes of those of
STACK. OFFSET, NUM, DEN, LOW and HIGH are whole numbers from -2,147,483,648 to 2,147,483,647, DEN
from 1 on and LOW at most HIGH. REGIONS is up to 32 regions X,Y,W,H with ; between, as
'0,0,100,100;50,50,10,10', and LENGTH 1 to 4,096. N is at most 65,536, W and H are 1 to 8,192, KIND
is Int8, UInt8, Int16, UInt16, Int32 or UInt32, and START, 0 to 2,147,483,647, begins the samples;
for demo N is 1 to 4,096. docs/formats.md, docs/orientation.md and docs/outputs.md tell more.

A file node writes <PREFIX>NODE_000.nc, <PREFIX>NODE_001.nc and so on, and a statistics node
<PREFIX>NODE.txt. What stands under such a name, or under NAME, is replaced without a question, the
inputs too where they are named so. No folder is made. The system has made sure of the bytes of the
first 64 files, and of each of 64 KiB or more, where the status is 0; others may be written later.

The status, which one line on standard error tells where it isn't 0:

    0  Done         the command did its work
    1  Usage        there is no such command, or it takes another number of words, or other ones
    2  GraphText    GRAPH is no TOML: mend its text
    3  GraphRule    GRAPH breaks a rule, which is named: see docs/graph.md
    4  StackBytes   STACK or DARK isn't such a file; the fault is named: see docs/formats.md
    5  Limit        a file is too large to be read, or a run or a file that is to be written would
                    be too large: cut the stack, keep fewer bins, or write smaller groups of arrays
    6  ReadFault    GRAPH, STACK, DARK, LOG or a file to check isn't there or can't be read
    7  ShelfFault   a file can't be made or written, as where its folder isn't there or is full:
                    mend that and run again, which writes the files anew
    8  OutFault     the files stand, but standard output failed
    9  OutOfMemory  out of memory: free some, or cut the stack
    10 Sizes        the frames to be turned have one dimension; or DARK has no frame, or frames
                    of other sizes than STACK
    11 LogBytes     a line of LOG, whose number is told, is none of a log
    12 LogRefused   LOG isn't that of a whole run: the number of the first entry that can't stand
                    there is told, or it is unfinished
    13 FileDiffers  a file isn't that of the run: the numbers of its plugin and its group are told
";

const VERSION: &str = "nd_replay 0.1.0
";

/// The words of the command line after the program's name. Words that are no text are no command.
fn command_words(rt: &(impl Env + AllocGlobal)) -> Result<Vec<String>, Status> {
    let arguments = env::args(rt).map_err(|error| match error.kind() {
        ErrorKind::OutOfMemory => Status::OutOfMemory,
        _ => Status::Usage,
    })?;
    match arguments.skip(1).collect(rt.alloc()) {
        Ok(words) => Ok(words),
        Err(_) => Err(Status::OutOfMemory),
    }
}

/// Whether a command runs a graph with its threads.
fn is_run(word: &str) -> bool {
    matches!(word, "run" | "run-log" | "watch" | "demo")
}

/// What became of a print that is no command's work.
fn printed(done: io::Result<()>) -> Status {
    match done {
        Ok(()) => Status::Done,
        Err(_) => Status::OutFault,
    }
}

/// Does what the words of a command ask for, over real files, standard output and the machine's clock.
fn replay(
    rt: &(impl Files + Print + time::Clock + Threads + Wait + Sync + AllocGlobal),
    words: &[String],
) -> Status {
    let Ok(mut shelf) = DiskShelf::new(rt.alloc(), rt) else {
        return Status::OutOfMemory;
    };
    let mut library = DiskLibrary::new(rt);
    let mut out = OutSink::new(rt);
    match words {
        [word, ..] if is_run(word.as_str()) => {
            let mut clock = RealClock::new(rt);
            let gate = OpenGate::new(rt);
            let exit = run_top(
                rt,
                rt.alloc(),
                words,
                &mut library,
                &mut shelf,
                &mut out,
                &mut clock,
                &gate,
            );
            exit.status
        }
        _ => tool_top(rt.alloc(), words, &mut library, &mut shelf, &mut out),
    }
}

/// Does what the words of a check ask for, over real files and standard output.
fn check(rt: &(impl Files + Print + AllocGlobal), words: &[String]) -> CheckStatus {
    let mut library = DiskLibrary::new(rt);
    let mut out = OutSink::new(rt);
    check_top(rt.alloc(), words, &mut library, &mut out)
}

/// Does what the words ask for.
fn run(
    rt: &(impl Files + Print + time::Clock + Threads + Wait + Sync + AllocGlobal),
    words: &[String],
) -> CheckStatus {
    let status = match words {
        [word, ..] if word.as_str() == "check" => return check(rt, words),
        [word] if word.as_str() == "--help" || word.as_str() == "-h" => printed(rt.print(HELP)),
        [word] if word.as_str() == "--version" => printed(rt.print(VERSION)),
        _ => replay(rt, words),
    };
    CheckStatus::Common(status)
}

/// The line of a status that other commands have, too, without what it carries.
fn short_common_line(status: &Status) -> &'static str {
    match status {
        Status::Done => "nd_replay: status 0 Done",
        Status::Usage => "nd_replay: status 1 Usage",
        Status::GraphText => "nd_replay: status 2 GraphText",
        Status::GraphRule(_) => "nd_replay: status 3 GraphRule",
        Status::StackBytes(_) => "nd_replay: status 4 StackBytes",
        Status::Limit(_) => "nd_replay: status 5 Limit",
        Status::ReadFault => "nd_replay: status 6 ReadFault",
        Status::ShelfFault => "nd_replay: status 7 ShelfFault",
        Status::OutFault => "nd_replay: status 8 OutFault",
        Status::OutOfMemory => "nd_replay: status 9 OutOfMemory",
        Status::Sizes => "nd_replay: status 10 Sizes",
    }
}

/// The line of a status without what it carries, which needs no memory.
fn short_line(status: &CheckStatus) -> &'static str {
    match status {
        CheckStatus::Common(status) => short_common_line(status),
        CheckStatus::LongLog { .. } => "nd_replay: status 5 Limit",
        CheckStatus::LogBytes(_) => "nd_replay: status 11 LogBytes",
        CheckStatus::LogRefused(_) => "nd_replay: status 12 LogRefused",
        CheckStatus::FileDiffers(_) => "nd_replay: status 13 FileDiffers",
    }
}

/// Says on standard error why the program didn't do its work.
fn report(rt: &(impl Eprint + AllocGlobal), status: &CheckStatus) {
    let _ = match check_status_text(rt.alloc(), status) {
        Ok(text) => eprintln!(rt; "nd_replay: {text}"),
        Err(_) => rt.eprintln(short_line(status)),
    };
}

/// Does what the command line asks for, and ends with the number of its status, which is reported unless it is `Done`.
fn main(rt: HostRuntime) -> ExitCode {
    let status = match command_words(&rt) {
        Ok(words) => run(&rt, &words),
        Err(status) => CheckStatus::Common(status),
    };
    if !matches!(status, CheckStatus::Common(Status::Done)) {
        report(&rt, &status);
    }
    ExitCode::from(status.number())
}
