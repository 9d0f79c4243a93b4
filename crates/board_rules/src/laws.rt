//! What holds of every list of calls. Each function is a law: it does nothing, and its contract says what holds.

ghost use Rattle.board_rules.specs.MoveLaws.{MovedIsLegal, MovedIsTheOnly, MovedIsOneMove, MovesAreAdded, OwnTellsHand, MovesTellHand};
ghost use Rattle.board_rules.specs.RunLaws.{RunsAreLegal, CallsKeepStorage, RunsKeepStorage, LosslessRunsKeepStorage, CallsAddMoves};
ghost use Rattle.board_rules.specs.AnswerLaws.{AnswersExist, LogsAreTold};

use nd_base::Held;

/// Calls lead from legal histories to legal histories, by their contracts alone.
pub fn calls_keep_histories<F: Held>()
    ensures moves { MovedIsLegal }
    ensures runs { RunsAreLegal F F.Blank F.Of }
{}

/// Where all that was handed out for a hand comes back with it, nothing stays away, and no storage is made anew.
pub fn calls_keep_storage<F: Held>()
    ensures call { CallsKeepStorage F F.Blank F.Of }
    ensures runs { RunsKeepStorage F F.Blank F.Of }
    ensures lossless { LosslessRunsKeepStorage F F.Blank F.Of }
{}

/// A legal move is the one that begins with its entry. What a call adds is nothing or one move of its caller, which
/// comes to the moves of that role alone.
pub fn calls_add_moves<F: Held>()
    ensures only { MovedIsTheOnly }
    ensures one { MovedIsOneMove }
    ensures calls { CallsAddMoves F F.Blank F.Of }
    ensures added { MovesAreAdded }
{}

/// What a role has in hand is told by its own entries, and so by its moves.
pub fn own_entries_tell_hands()
    ensures own { OwnTellsHand }
    ensures moves { MovesTellHand }
{}

/// Each call has an answer at every board; and but for want of memory, all its answers leave the same log.
pub fn calls_have_answers<F: Held>()
    ensures exist { AnswersExist F F.Blank F.Of }
    ensures told { LogsAreTold F F.Blank F.Of }
{}
