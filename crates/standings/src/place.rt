// Where the rows begin.
ghost use Rattle.std.specs.Prelude.{◌≡◌, ◌-◌, ◌*◌, min};
ghost use Rattle.declare.specs.Limits.{most_events};
ghost use Rattle.standings.specs.Places.{places};

use declare::{EVENTS, RULES};

// The first place of a rule's row; past the rules, the place past all cells.
pub fn row_start(rule: usize) -> usize
    ensures { result ≡ min ((rule - 1) * most_events) places }
{
    rule.saturating_sub(1).min(RULES) * EVENTS
}
