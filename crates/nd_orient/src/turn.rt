//! What each mode does to dimensions 0 and 1.

ghost use Rattle.std.specs.Prelude.{◌≡◌, ◌<◌};
ghost use Rattle.nd_orient.specs.Orientation.{turn_of};

/// How the output's dimensions 0 and 1 run over those of the input.
#[derive(Clone, Copy, Debug, PartialEq, Eq)]
pub(crate) struct Turn {
    /// The output's dimension 0 runs over the input's dimension 1, and the other way round.
    pub swaps: bool,
    /// The output's dimension 0 runs down.
    pub x_down: bool,
    /// The output's dimension 1 runs down.
    pub y_down: bool,
}

/// The modes 0 to 7: a turn by 0 to 3 quarters, and each of them mirrored.
const TURNS: [Turn; 8] = [
    Turn {
        swaps: false,
        x_down: false,
        y_down: false,
    },
    Turn {
        swaps: true,
        x_down: true,
        y_down: false,
    },
    Turn {
        swaps: false,
        x_down: true,
        y_down: true,
    },
    Turn {
        swaps: true,
        x_down: false,
        y_down: true,
    },
    Turn {
        swaps: false,
        x_down: true,
        y_down: false,
    },
    Turn {
        swaps: true,
        x_down: false,
        y_down: false,
    },
    Turn {
        swaps: false,
        x_down: false,
        y_down: true,
    },
    Turn {
        swaps: true,
        x_down: true,
        y_down: true,
    },
];

/// What a mode does.
pub(crate) fn turn_of(mode: u32) -> Turn
    requires { mode < 8 }
    ensures { result ≡ turn_of mode }
{
    TURNS[mode as usize]
}
