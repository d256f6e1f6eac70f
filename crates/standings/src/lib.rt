// The store of a run's standings: sixteen rows, one a rule, of 256 cells, one a position, in one
// flat array.
#![tactic(auto)]

ghost use Rattle.std.specs.Prelude.{◌≡◌};
ghost use Rattle.standings.specs.Places.{idle_cells, idle_overall, standing_in, zero_in};

use crate::place::row_start;
use crate::totals::Totals;
use declare::codes::is_overall_rule;
use declare::{RULES, Standing, Table};

mod place; // place.rt: where the rows begin
pub mod totals; // totals.rt: the totals of a rule

// The cells of all rules.
pub const PLACES: usize = 4096;

#[derive(Clone, Copy)]
pub struct Cell {
    pub standing: Standing,
}

// As start gives it.
const IDLE: Cell = Cell {
    standing: Standing::Idle,
};

// The cells of all rules, and totals that count them.
#[derive(Clone, Copy)]
pub struct CountedCells {
    pub cells: [Cell; PLACES],
    pub totals: [Totals; RULES],
}

// As start gives them.
pub fn idle_cells() -> [Cell; PLACES]
    ensures { result ≡ idle_cells }
{
    [IDLE; PLACES]
}

// The same for position 0, one cell a rule.
pub fn idle_overall() -> [Cell; RULES]
    ensures { result ≡ idle_overall }
{
    [IDLE; RULES]
}

// The standing of a rule's position; both count from 1. Past the cells it is idle.
pub fn standing_in(cells: [Cell; PLACES], rule: usize, position: usize) -> Standing
    ensures { result ≡ standing_in cells rule position }
{
    let place = row_start(rule).saturating_add(position.saturating_sub(1));
    cells.get(place).map_or(Standing::Idle, |c| c.standing)
}

// The standing of a rule at position 0: that of its cell, if it is about the cycle as such.
pub fn zero_in(table: Table, cells: [Cell; RULES], rule: usize) -> Standing
    ensures { result ≡ zero_in table cells rule }
{
    if !is_overall_rule(table, rule) {
        return Standing::Idle;
    }
    cells
        .get(rule.saturating_sub(1))
        .map_or(Standing::Idle, |c| c.standing)
}
