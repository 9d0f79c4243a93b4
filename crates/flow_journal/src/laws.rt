//! What holds of every legal history. Each function is a law: it does nothing, and its contract says what holds.

ghost use Rattle.flow_journal.specs.EntryLaws.{BreakLaws, ClockLaws, HandLaws, JobLaws, OfferLaws, PutLaws, QueueLaws, RingLaws, RoleLaws, SaveLaws};
ghost use Rattle.flow_journal.specs.HistoryLaws.{MovesKeepHistories, FrontsAreLegal, FrontsAreHistories, HistoriesAreMoves, OneHandARole, LastHandARole};
ghost use Rattle.flow_journal.specs.HistoryLaws.{ReclaimsTheHand, OneBlockLoaded, OnePieceANode, SettledAreIdle, QueuesInCounts, AcceptsOnce, EmitsOnce};
ghost use Rattle.flow_journal.specs.HistoryLaws.{PlacesAreKnown, LoadsAreUnplaced, TakesAreUnplaced, RunsLoadUnplaced, RunsTakeUnplaced};
ghost use Rattle.flow_journal.specs.HistoryLaws.{RunsPlacesAreKnown};
ghost use Rattle.flow_journal.specs.IndexLaws.{IndexLaws};
ghost use Rattle.flow_journal.specs.LengthLaws.{LengthLaws};
ghost use Rattle.flow_journal.specs.LimitLaws.{LimitLaws};
ghost use Rattle.flow_journal.specs.MoveLaws.{LogsGoOn, MoveLaws};
ghost use Rattle.flow_journal.specs.QueueOrder.{QueuesInOrder};
ghost use Rattle.flow_journal.specs.RowLaws.{TestLaws, RowLaws};
ghost use Rattle.flow_journal.specs.DueLaws.{DueLaws};
ghost use Rattle.flow_journal.specs.AccountLaws.{BlockLaws, CountLaws, KeptLaws, KnownLaws, HeldLaws};
ghost use Rattle.flow_journal.specs.OutputLaws.{OutputLaws};
ghost use Rattle.flow_journal.specs.RingPushes.{RingPushLaws, RingWindowLaws};
ghost use Rattle.flow_journal.specs.WaitingLaws.{LeastLaws};
ghost use Rattle.flow_journal.specs.SortListLaws.{SortListLaws};
ghost use Rattle.flow_journal.specs.LookLaws.{LookLaws};
ghost use Rattle.flow_journal.specs.TextLaws.{TextsTellEntries, TextsHaveNoBadLine};

/// Histories are made of moves, and grow by them.
pub fn histories_are_moves()
    ensures grow { MovesKeepHistories }
    ensures fronts { FrontsAreLegal }
    ensures cut { FrontsAreHistories }
    ensures moves { HistoriesAreMoves }
{}

/// When an entry is the first of a move.
pub fn moves_begin_by_rows()
    ensures tests { TestLaws }
    ensures rows { RowLaws }
{}

/// What roles have in hand.
pub fn hands_are_few()
    ensures roles { OneHandARole }
    ensures last { LastHandARole }
    ensures reclaims { ReclaimsTheHand }
    ensures loaded { OneBlockLoaded }
    ensures pieces { OnePieceANode }
    ensures settled { SettledAreIdle }
{}

/// What is queued is what came and didn't leave.
pub fn queues_count()
    ensures { QueuesInCounts }
{}

/// The next array of a queue is the one that was given back last, or else the one that came first.
pub fn queues_are_in_order()
    ensures { QueuesInOrder }
{}

/// No array comes twice.
pub fn arrays_come_once()
    ensures accepted { AcceptsOnce }
    ensures emitted { EmitsOnce }
{}

/// Waiting results go out by id, and those of one id in the order of their puts, as from a sort list; and a look takes one at a
/// time.
pub fn least_goes_first()
    ensures order { LeastLaws }
    ensures list { SortListLaws }
    ensures looks { LookLaws }
{}

/// The pieces of a file node are its puts in their order, cut into groups, and when the next one is due.
pub fn pieces_come_in_groups()
    ensures { DueLaws }
{}

/// What a put does to the ring of a circular node, which is that of a `Window` over its puts.
pub fn rings_are_windows<T>()
    ensures put { RingPushLaws }
    ensures windows { RingWindowLaws T }
{}

/// What goes out of a node, of each kind, and of the driver.
pub fn nodes_emit_their_results()
    ensures { OutputLaws }
{}

/// What each entry changes.
pub fn entries_change_facts()
    ensures queues { QueueLaws }
    ensures hands { HandLaws }
    ensures offers { OfferLaws }
    ensures indices { IndexLaws }
    ensures puts { PutLaws }
    ensures rings { RingLaws }
    ensures saves { SaveLaws }
    ensures jobs { JobLaws }
    ensures clocks { ClockLaws }
    ensures breaks { BreakLaws }
    ensures roles { RoleLaws }
{}

/// What each entry does to the pool account.
pub fn entries_move_blocks()
    ensures frames { BlockLaws }
    ensures counts { CountLaws }
    ensures kept { KeptLaws }
    ensures known { KnownLaws }
    ensures held { HeldLaws }
{}

/// A block that has a place is known, and one that is granted has none: of every legal history of a run, and of each setting
/// whose blocks are accounted. In a log without a pool each grant is zeros, and nothing is said of it.
pub fn grants_are_unplaced()
    ensures known { PlacesAreKnown }
    ensures loads { LoadsAreUnplaced }
    ensures takes { TakesAreUnplaced }
    ensures run_loads { RunsLoadUnplaced }
    ensures run_takes { RunsTakeUnplaced }
    ensures run_known { RunsPlacesAreKnown }
{}

/// A text is that of one list of entries at most, and no line of it is bad.
pub fn texts_tell_entries()
    ensures one { TextsTellEntries }
    ensures read { TextsHaveNoBadLine }
{}

/// How many entries a log can have.
pub fn logs_are_short()
    ensures { LengthLaws }
{}

/// A log is cut into moves by the kinds of its entries, in one way, and what is owed can always come.
pub fn moves_are_cut_by_kind()
    ensures moves { MoveLaws }
    ensures goes_on { LogsGoOn }
{}

/// With a limit the known blocks are within it, and no block is given up that needn't be.
pub fn pools_keep_their_limit()
    ensures { LimitLaws }
{}
