// Time differences.
ghost use Rattle.std.specs.Prelude.{◌≡◌};
ghost use Rattle.declare.specs.Suits.{before_end, within, between};

use declare::{End, Window};

// Whether the difference d is below the end.
#[tactic(auto, unfolding(declare::specs::Suits::before_end))]
fn before_end(d: u32, until: End) -> bool
    ensures { result ≡ before_end d until }
{
    until.is_none_or(|b| d < b)
}

// Whether the difference d is in the window: a is inside, b outside.
#[tactic(auto, unfolding(declare::specs::Suits::within))]
pub fn within(window: Window, d: u32) -> bool
    ensures { result ≡ within window d }
{
    (window.from <= d) & before_end(d, window.until)
}

// The later time minus the earlier.
pub fn between(s: u32, t: u32) -> u32
    ensures { result ≡ between s t }
{
    s.abs_diff(t)
}
