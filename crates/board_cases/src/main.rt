//! `board_cases`: plays lists of board calls from a table, and prints what each call answers and what stands in the log. The table is
//! its standard input; `data/` beside the crate holds the graphs and the stacks that it names.
#![tactic(auto)]

mod board;
mod calls;
mod ending;
mod feeding;
mod line;
mod printing;
mod saving;
mod seats;
mod sources;
mod table;
mod working;

use anyhow::{Context, Result};
use std::io::{BufRead, BufReader};
use table::Player;

/// Plays the table on standard input.
fn main(rt: HostRuntime) -> Result<()> {
    let alloc = rt.alloc();
    let mut player = Player::new(alloc);
    for (index, line) in BufReader::new(alloc, rt.reader())?.lines(alloc).enumerate() {
        player
            .play(&rt, line?.as_str())
            .context(format_args!("after {index} lines"))?;
    }
    player.done()
}
