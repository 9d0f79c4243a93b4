//! How an array is measured: by the thread that asks for it, or by several.

ghost use Rattle.std.specs.Prelude.{◌≡◌, ◌*◌, ◌≤◌, ⊤, length, IfOk, IsTrue};
ghost use Rattle.std.specs.Thread.{IsSync};
ghost use Rattle.nd_base.specs.GraphRules.{IsStats};
ghost use Rattle.nd_base.specs.Samples.{width};
ghost use Rattle.nd_base.specs.Shapes.{has_dimensions, sample_count, most_samples};
ghost use Rattle.nd_stats.specs.Measured.{measure_of};

use nd_base::{Dim, Measure, OutOfMemory, Plan, SampleType, StatsRule};
use nd_stats::{measure, measure_chunks};
use std::alloc::Global;
use std::thread::{Threads, available_parallelism};

/// What measures arrays.
pub trait Measuring {
    /// Holds of one that may measure.
    ghost ready: { Self → Type 0 };

    /// The measure of an array. `samples` are the bytes of its samples, the most significant byte of each first.
    ///
    /// # Errors
    ///
    /// Where memory is refused.
    fn measure(
        &self,
        alloc: Global,
        rule: &StatsRule,
        id: i32,
        kind: SampleType,
        dims: &[Dim],
        samples: &[u8],
    ) -> Result<Measure, OutOfMemory>
        requires ready { ready self.now }
        requires rule { IsStats rule.now }
        requires dimensions { IsTrue (has_dimensions dims.now) }
        requires few { sample_count dims.now ≤ most_samples }
        requires samples { length samples.now ≡ sample_count dims.now * width kind }
        ensures { IfOk result (λ m. m ≡ measure_of rule.now id kind dims.now 0 samples.now) };
}

/// The thread that asks.
#[derive(Drop)]
pub struct Alone;

impl Measuring for Alone {
    ghost ready = { λ _. ⊤ };

    fn measure(
        &self,
        alloc: Global,
        rule: &StatsRule,
        id: i32,
        kind: SampleType,
        dims: &[Dim],
        samples: &[u8],
    ) -> Result<Measure, OutOfMemory> {
        measure(alloc, rule, id, kind, dims, samples)
    }
}

/// What a worker has to work with: the runtime, and whether there are processors to spare.
#[derive(Drop)]
pub(crate) struct Crew<'a, W> {
    pub rt: &'a W,
    pub spare: bool,
}

impl<'a, W: Threads + Sync> Measuring for Crew<'a, W> {
    ghost ready = { λ _. IsSync W.row };

    fn measure(
        &self,
        alloc: Global,
        rule: &StatsRule,
        id: i32,
        kind: SampleType,
        dims: &[Dim],
        samples: &[u8],
    ) -> Result<Measure, OutOfMemory> {
        if self.spare {
            measure_chunks(self.rt, alloc, rule, id, kind, dims, samples)
        } else {
            measure(alloc, rule, id, kind, dims, samples)
        }
    }
}

/// Whether there are more processors than workers that compute.
pub(crate) fn has_spare(rt: &impl Threads, plan: &Plan) -> bool {
    let mut busy = 0usize;
    for rule in plan.graph.nodes.as_slice() {
        if rule.kind.is_parallel() {
            busy = busy.saturating_add(rule.threads as usize);
        }
    }
    match available_parallelism(rt) {
        Ok(processors) => busy < processors.get(),
        Err(_) => false,
    }
}
