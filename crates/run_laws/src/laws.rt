//! What holds of every finished history. Each function is a law: it does nothing, and its contract says what holds.

ghost use Rattle.run_laws.specs.BufferLaws.{GrantsAreUnplaced};
ghost use Rattle.run_laws.specs.CauseLaws.{FullListsDrop, FullQueuesDrop, RefusedPoolsDrop, RefusedPoolsRefuse};
ghost use Rattle.run_laws.specs.DropLaws.{EmissionsAreOffered, EveryFrameIsOffered, FramesAreLoadedOrRefused, LoadedFramesAreIssued};
ghost use Rattle.run_laws.specs.DropLaws.{EachOfferIsAcceptedOrDropped, OffersAreAcceptedOrDropped};
ghost use Rattle.run_laws.specs.FeedLaws.{WaitingFeedFindsRoom};
ghost use Rattle.run_laws.specs.OneThreadLaws.{AcceptedAreOfTheInput, EmissionsPermuteTheAccepted, FilesSaveTheAccepted, OneThreadEmitsTheAccepted};
ghost use Rattle.run_laws.specs.OneThreadLaws.{OutputsAreOfTheNode, OutputsInOrder, OutputsInSomeOrder, WindowsEmitTheAccepted};
ghost use Rattle.run_laws.specs.OrderLaws.{BreaksAreMarked, FlushesComeAtTheEnd, LateOnesHaveWaited, MarkedBreaksAreCounted};
ghost use Rattle.run_laws.specs.PlainLaws.{SmoothRunsArePlain};
ghost use Rattle.run_laws.specs.RunHolds.{FinishedRunsHold};

/// Every array that was offered was accepted for good or dropped, and all that a node emitted and every frame were offered.
pub fn arrays_are_accepted_or_dropped()
    ensures offered { EmissionsAreOffered }
    ensures each { EachOfferIsAcceptedOrDropped }
    ensures accepted_or_dropped { OffersAreAcceptedOrDropped }
    ensures loaded_or_refused { FramesAreLoadedOrRefused }
    ensures issued { LoadedFramesAreIssued }
    ensures every_frame { EveryFrameIsOffered }
{}

/// A node of one thread without a sort list, as each circular, file and scatter node is, puts out its one-thread result on exactly the
/// arrays that it accepted for good, in their order.
pub fn outputs_keep_order()
    ensures files { FilesSaveTheAccepted }
    ensures regions { OneThreadEmitsTheAccepted }
    ensures windows { WindowsEmitTheAccepted }
    ensures run { OutputsInOrder }
{}

/// Any other node puts out the same arrays, in some order.
pub fn outputs_are_permutations()
    ensures regions { EmissionsPermuteTheAccepted }
    ensures run { OutputsInSomeOrder }
{}

/// What comes to a node has the name of its input's maker, and what goes out of it that of its own.
pub fn names_are_makers()
    ensures accepted { AcceptedAreOfTheInput }
    ensures out { OutputsAreOfTheNode }
{}

/// A node with a sort list goes by the ids save for counted breaks: these are emissions that are marked late, past the sort time by
/// recorded ticks, or flush, after the node's input ended.
pub fn breaks_are_marked()
    ensures marked { BreaksAreMarked }
    ensures late { LateOnesHaveWaited }
    ensures flush { FlushesComeAtTheEnd }
    ensures counted { MarkedBreaksAreCounted }
{}

/// A drop comes only at a full queue, a refused pool or a full sort list.
pub fn drops_have_causes()
    ensures full_queue { FullQueuesDrop }
    ensures refused_pool { RefusedPoolsDrop }
    ensures full_list { FullListsDrop }
    ensures refused_frame { RefusedPoolsRefuse }
{}

/// No block that is held is handed out.
pub fn grants_are_unplaced()
    ensures { GrantsAreUnplaced }
{}

/// A feed that waits for room finds it, where no hand is taken back.
pub fn waiting_feeds_find_room()
    ensures { WaitingFeedFindsRoom }
{}

/// Without a drop and without a break, and with distinct ids, each node puts out what it does in the plain run.
pub fn smooth_runs_are_plain()
    ensures { SmoothRunsArePlain }
{}

/// All this, point by point, of every finished run.
pub fn finished_runs_hold()
    ensures { FinishedRunsHold }
{}
