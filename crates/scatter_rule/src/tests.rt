//! Choices among two children, in turn and past full queues.

use crate::{Choice, next_child};
use std::test::Fail;

#[test]
fn children_get_arrays_in_turn(rt: HostRuntime) -> Result<(), Fail> {
    let rows = [
        (0, [0, 0], [20, 20], Choice::Give(0)),
        (1, [1, 0], [20, 20], Choice::Give(1)),
        (0, [1, 1], [1, 20], Choice::Give(1)),
        (1, [0, 20], [20, 20], Choice::Give(0)),
        (0, [1, 1], [1, 1], Choice::AllFull),
        (1, [1, 1], [1, 1], Choice::AllFull),
    ];
    for (turn, queued, sizes, expected) in rows {
        assert_eq!(rt; next_child(turn, &queued, &sizes), expected);
    }
    Ok(())
}
