//! Plays a list of calls over a board of its own.

ghost use Rattle.std.specs.Prelude.{◌≡◌};
ghost use Rattle.nd_base.specs.GraphRules.{IsGraph};
ghost use Rattle.nd_base.specs.Stacks.{IsStack};
ghost use Rattle.chain_plain.specs.Plans.{plan_of};
ghost use Rattle.flow_journal.specs.Setting.{last_role};
ghost use Rattle.board_rules.specs.RunMeasures.{run_setting};
ghost use Rattle.board_cases.specs.Ends.{MayDrain};

use crate::calls::make_all;
use crate::ending::{gather, save_all};
use crate::line::{Ending, NamedCall, NamedEnding};
use crate::printing::{print_log, print_measures, print_report};
use crate::seats::deal;
use anyhow::Result;
use board_rules::{BoardCalls, Left};
use flow_core::Board;
use flow_drain::drain;
use flow_roles::{share_board, take_back, worker_nodes};
use frame_store::Frame;
use nd_base::{Plan, Run, Stack};
use std::marker::Brand;
use std::sync::Wait;

/// Does what is left once all roles have ended with this in hand, if that is asked for, and prints what stands in the log then.
fn finish<R: Run, B: BoardCalls<Frame<R>>, W: Print + AllocGlobal>(
    rt: &W,
    board: B,
    role: u32,
    lefts: Vec<Left<Frame<R>>>,
    plan: &Plan,
    stack: &Stack,
    ending: Ending,
) -> Result<()>
    requires role { role ≡ last_role (run_setting R.graph R.stack) }
    requires plan { plan.now ≡ plan_of R.graph R.stack }
    requires graph { IsGraph R.graph }
    requires stack { stack.now ≡ R.stack }
    requires ends { MayDrain (run_setting R.graph R.stack) (B.shown board) lefts.items }
{
    let alloc = rt.alloc();
    let mut board = board;
    let before = board.progress().entries as usize;
    if let Ending::Drained { tick } = ending {
        drain(alloc, &mut board, lefts, plan, stack, tick)?;
        save_all::<R, B>(&mut board, role, plan)?;
    }
    println!(rt; "finished: {}", board.finished())?;
    let (log, measures) = board.into_parts();
    print_log(rt, &log, before)?;
    print_report(rt, plan, &log)?;
    print_measures(rt, plan, &measures)
}

/// Plays the calls over a board of this run.
fn play<R: Run, W: Print + Wait + AllocGlobal>(
    rt: &W,
    plan: &Plan,
    stack: &Stack,
    calls: &[NamedCall],
    ending: &NamedEnding,
) -> Result<()>
    requires plan { plan.now ≡ plan_of R.graph R.stack }
    requires graph { IsGraph R.graph }
    requires sound { IsStack R.stack }
    requires stack { stack.now ≡ R.stack }
{
    let alloc = rt.alloc();
    let nodes = worker_nodes::<R>(alloc, plan)?;
    let last = nodes.len() as u32 + 1;
    let board = Board::<Frame<R>>::start(alloc, plan)?;
    let (desk, passes) = share_board(alloc, board, last + 1)?;
    let mut seats = deal(alloc, &desk, passes, nodes.as_slice())?;
    make_all(rt, alloc, &desk, last, &mut seats, plan, stack, calls)?;
    rt.println(ending.line.as_str())?;
    let (passes, lefts) = gather(alloc, seats)?;
    let board = take_back(desk, passes);
    finish(rt, board, last, lefts, plan, stack, ending.ending)
}

/// Plays a list of calls over a board of this plan and this stack, and ends it.
pub fn play_board<W: Print + Wait + AllocGlobal>(
    rt: &W,
    plan: &Plan,
    stack: &Stack,
    calls: &[NamedCall],
    ending: &NamedEnding,
) -> Result<()>
    requires plan { plan.now ≡ plan_of plan.now.graph stack.now }
    requires graph { IsGraph plan.now.graph }
    requires sound { IsStack stack.now }
{
    play::<Brand, W>(rt, plan, stack, calls, ending)
}
