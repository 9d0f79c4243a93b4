//! What holds of contents and plans. Each function is a law: it does nothing, and its contract says what holds.

ghost use Rattle.chain_plain.specs.ContentLaws.{DriverHasTheStack, NodesPassOnTheirMakers, RegionsCutTheirInputs, MakersMake, ContentsAreAsPlanned};
ghost use Rattle.chain_plain.specs.ContentLaws.{PlansAreSound, ContentsKeepHeads, TriggersFireAtContents};

/// The content of a frame follows the way from the driver to its maker.
pub fn contents_follow_the_graph()
    ensures driver { DriverHasTheStack }
    ensures regions { RegionsCutTheirInputs }
    ensures others { NodesPassOnTheirMakers }
    ensures makers { MakersMake }
{}

/// A content has the shape that the plan says, and what a frame has beside its samples is the stack's.
pub fn contents_are_as_planned()
    ensures shapes { ContentsAreAsPlanned }
    ensures sound { PlansAreSound }
    ensures heads { ContentsKeepHeads }
    ensures triggers { TriggersFireAtContents }
{}
