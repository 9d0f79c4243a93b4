//! `nd_cases`: plays the cases of a table over objects in memory, and prints what each leaves. The table is its
//! standard input; `data/` beside the crate holds graphs that several cases name.
#![tactic(auto)]

mod choices;
mod edits;
mod files;
mod gate;
mod layout;
mod library;
mod line;
mod objects;
mod outcome;
mod play;
mod printing;
mod questions;
mod setting;
mod shelf;
mod stacks;

use anyhow::{Context, Result};
use play::Player;
use std::io::{BufRead, BufReader};

/// Plays the table on standard input.
fn main(rt: HostRuntime) -> Result<()> {
    let alloc = rt.alloc();
    let mut player = Player::new(alloc);
    for (index, line) in BufReader::new(alloc, rt.reader())?.lines(alloc).enumerate() {
        player
            .play(&rt, line?.as_str())
            .context(format_args!("after {index} lines"))?;
    }
    Ok(())
}
