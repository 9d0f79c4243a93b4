//! What a log is made of.

/// Why an array was emitted.
#[derive(Clone, Copy, Debug, PartialEq, Eq)]
pub enum Why {
    /// From the driver or an unsorted node.
    Plain,
    /// From a sorted node, and the id keeps step.
    Step,
    /// From a sorted node, past the sort time.
    Late,
    /// From a sorted node that was settled.
    Flush,
    /// From a circular node, out of its ring.
    Ring,
    /// From a circular node, straight after its put.
    Now,
}

/// One event of a run. Nodes are numbered from 1 in the graph's order, and the driver is node 0. A frame is
/// named by the node that made it and its position in the stack.
#[derive(Clone, Copy, Debug, PartialEq, Eq)]
pub enum Entry {
    /// The feeder was granted a block of `size` bytes for a frame. `given` blocks were given up for a `fresh`
    /// one; `regrown` is whether the storage of one that isn't fresh had to be made again.
    Load {
        role: u32,
        index: u32,
        block: u32,
        size: u32,
        fresh: bool,
        given: u32,
        regrown: bool,
    },
    /// The pool refused the feeder `need` bytes while `held` were held.
    LoadRefused {
        role: u32,
        index: u32,
        need: u32,
        held: u64,
    },
    /// The tick that is kept after a load.
    Tick {
        tick: u64,
    },
    /// The feeder issued its frame.
    Issue {
        role: u32,
        index: u32,
    },
    /// The driver or a node passed an array on.
    Emit {
        node: u32,
        maker: u32,
        index: u32,
        why: Why,
    },
    /// The node's queue took the array.
    Accept {
        node: u32,
        maker: u32,
        index: u32,
    },
    /// The node's queue was full, and it dropped the array.
    Full {
        node: u32,
        maker: u32,
        index: u32,
    },
    /// A worker took the array as a job, at a node that makes no arrays.
    Take {
        role: u32,
        node: u32,
        maker: u32,
        index: u32,
    },
    /// A worker took the array as a job, with a block for the array that the node makes of it.
    TakeBlock {
        fresh: bool,
        regrown: bool,
        role: u32,
        node: u32,
        maker: u32,
        index: u32,
        block: u32,
        size: u32,
        given: u32,
    },
    /// The pool refused the block of a job, and the array was dropped.
    PoolDrop {
        role: u32,
        node: u32,
        maker: u32,
        index: u32,
        need: u32,
        held: u64,
    },
    /// A job's result came. The name is the result's.
    Put {
        role: u32,
        node: u32,
        maker: u32,
        index: u32,
        fired: bool,
    },
    /// The node's sort list was full, and the result was dropped.
    SortDrop {
        node: u32,
        maker: u32,
        index: u32,
    },
    /// The node ended.
    Settle {
        role: u32,
        node: u32,
    },
    /// A role took the array as a piece to save, in the group of that number.
    Save {
        role: u32,
        node: u32,
        maker: u32,
        index: u32,
        group: u32,
    },
    /// The piece came back.
    Saved {
        role: u32,
        node: u32,
        maker: u32,
        index: u32,
    },
    /// The feed ended.
    Close {
        role: u32,
    },
    /// The role ended for want of memory.
    Leave {
        role: u32,
    },
    /// What the role had in hand was taken back.
    Reclaim {
        role: u32,
    },
}
