// The totals of a rule: how many of its positions stand in each way.
ghost use Rattle.std.specs.Prelude.{◌≡◌, cond};
ghost use Rattle.declare.specs.declared.Standing.TheVariants.{Idle};
ghost use Rattle.declare.specs.Overall.{is_overall};
ghost use Rattle.standings.specs.Totals.{no_totals, with_standing, idle_totals, zero_totals};

use crate::Cell;
use declare::codes::is_overall;
use declare::{RULES, Standing, Table};

// How many positions of a rule are not idle, and how many of these are fulfilled, violated and
// open.
#[derive(Clone, Copy, PartialEq, Eq)]
pub struct Totals {
    pub activations: u16,
    pub fulfilled: u16,
    pub violated: u16,
    pub open: u16,
}

// Of no positions.
pub fn no_totals() -> Totals
    ensures { result ≡ no_totals }
{
    Totals {
        activations: 0,
        fulfilled: 0,
        violated: 0,
        open: 0,
    }
}

// The totals of one position more, with the standing s; each counts in 16 bits.
#[tactic(auto, unfolding(crate::specs::Totals::with_standing))]
pub fn with_standing(t: Totals, s: Standing) -> Totals
    ensures { result ≡ with_standing t s }
{
    let activations = t.activations.wrapping_add(1);
    match s {
        Standing::Idle => t,
        Standing::Open => Totals {
            activations,
            open: t.open.wrapping_add(1),
            ..t
        },
        Standing::Fulfilled(_) => Totals {
            activations,
            fulfilled: t.fulfilled.wrapping_add(1),
            ..t
        },
        Standing::Violated(_) => Totals {
            activations,
            violated: t.violated.wrapping_add(1),
            ..t
        },
    }
}

// Of all rules, as start gives them.
pub fn idle_totals() -> [Totals; RULES]
    ensures { result ≡ idle_totals }
{
    [no_totals(); RULES]
}

// The standing at position 0 of a rule with this code and cell.
fn zero_of(code: u8, c: Cell) -> Standing
    ensures { result ≡ cond (is_overall code) c.standing Idle }
{
    if is_overall(code) {
        c.standing
    } else {
        Standing::Idle
    }
}

// Each rule's slot begun with its position 0; slots past the rules stay as they are. One loop, in
// place of `zero_in` for each, so that the table is not copied for each.
pub fn zero_totals(
    table: Table,
    overall: [Cell; RULES],
    mut totals: [Totals; RULES],
) -> [Totals; RULES]
    ensures { result ≡ zero_totals table overall totals }
{
    let rules = table.count.min(RULES);
    // One index for three arrays: an iterator over one of them would be no plainer.
    for k in 0..rules {
        let zero = zero_of(table.rules[k].code, overall[k]);
        totals[k] = with_standing(no_totals(), zero);
    }
    totals
}
