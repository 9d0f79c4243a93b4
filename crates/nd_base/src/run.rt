//! A run.

use std::marker::Brand;

/// One stack and one graph. It has no calls: frames, board and roles of one run are generic over one
/// `Run`, so that their contracts speak of the same stack and graph.
pub trait Run {
    ghost use Rattle.nd_base.specs.declared.graph.Graph.{Graph};
    ghost use Rattle.nd_base.specs.Array.{StackValue};

    /// The stack that is replayed.
    ghost stack: { StackValue };

    /// The graph that it is replayed through.
    ghost graph: { Graph };
}

impl Run for Brand {
    ghost use Rattle.std.specs.Prelude.{[], false};
    ghost use Rattle.nd_base.specs.declared.array.SampleType.TheVariants.{UInt8};
    ghost use Rattle.nd_base.specs.declared.form.Form.TheVariants.{Classic};

    ghost stack = { record { shape = record { form = Classic; kind = UInt8; dims = []; attrs = []; width = 0; extras = [] }; arrays = [] } };

    ghost graph = { record { wait = false; limit = 0; nodes = [] } };
}
