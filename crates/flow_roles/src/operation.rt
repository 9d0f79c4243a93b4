//! The calls of a desk, as values.

ghost use Rattle.std.specs.Prelude.{◌≡◌};
ghost use Rattle.flow_roles.specs.Operations.{tick_of};

use board_rules::{Done, Load, NotYours, Save, Settled, Take};
use flow_journal::Progress;
use nd_base::Held;

/// A call of a desk. Each tells the role that makes it.
#[derive(Drop)]
pub enum DeskOp<F> {
    Load { role: u32, tick: u64 },
    Issue { role: u32, frame: F },
    Take { role: u32, node: u32 },
    Put { role: u32, done: Done<F> },
    Settle { role: u32, node: u32 },
    Close { role: u32 },
    Leave { role: u32 },
    Save { role: u32, node: u32 },
    Saved { role: u32, frame: F },
    Progress { role: u32 },
}

impl<F> DeskOp<F> {
    /// What a load is handed, and 0 for any other call.
    pub fn tick(&self) -> u64
        ensures { result ≡ tick_of self.now }
    {
        match self {
            DeskOp::Load { role: _, tick } => *tick,
            _ => 0,
        }
    }
}

/// What the board answered to the call of this name.
#[derive(Drop)]
pub enum DeskReply<F: Held> {
    Load(Load<F::Blank>),
    Issue(Result<(), NotYours<F>>),
    Take(Take<F>),
    Put(Result<(), NotYours<F>>),
    Settle(Settled),
    Close(Settled),
    Leave,
    Save(Save<F>),
    Saved(Result<(), NotYours<F>>),
    Progress(Progress),
}
