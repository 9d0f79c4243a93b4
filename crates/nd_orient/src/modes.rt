//! Modes one after another.

ghost use Rattle.std.specs.Prelude.{◌≡◌, ◌<◌};
ghost use Rattle.nd_orient.specs.Modes.{composed, inverse_of};

/// The mode that does what the first and then the second do.
pub fn compose(first: u32, second: u32) -> u32
    requires first { first < 8 }
    requires second { second < 8 }
    ensures value { result ≡ composed first second }
    ensures mode { result < 8 }
{
    let quarters = if first < 4 {
        first % 4 + second % 4
    } else {
        first % 4 + 4 - second % 4
    };
    quarters % 4 + 4 * ((first / 4 + second / 4) % 2)
}

/// The mode that takes this one back.
pub fn inverse(mode: u32) -> u32
    requires { mode < 8 }
    ensures value { result ≡ inverse_of mode }
    ensures mode { result < 8 }
{
    if mode < 4 { (4 - mode) % 4 } else { mode }
}
