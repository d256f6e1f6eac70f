// Whether a record is valid: the causes of refusal 11.
ghost use Rattle.std.specs.Prelude.{◌≡◌, cond, ◌+◌, ◌≤◌, leb, get_or};
ghost use Rattle.declare.specs.Lists.{all_below};
ghost use Rattle.declare.specs.Limits.{most_rules, most_events};
ghost use Rattle.declare.specs.Standings.{is_idle};
ghost use Rattle.standings.specs.Totals.{no_totals, row_totals};
ghost use Rattle.run.specs.Records.{valid_events, valid_standing, events_judged, valid_standings, valid_zero, valid_overall, same_totals, valid_run};

use crate::Run;
use declare::codes::is_overall;
use declare::{EVENTS, Event, RULES, Rule, Standing, Table};
use limits::event::well_formed;
use limits::table::valid_table;
use standings::totals::{Totals, idle_totals, with_standing, zero_totals};
use standings::{Cell, PLACES};

// Whether the first `count` events are well-formed and their times do not fall.
fn valid_events(count: usize, events: &[Event; EVENTS]) -> bool
    ensures { result ≡ valid_events count events.now }
{
    if EVENTS < count {
        return false;
    }
    let mut valid = true;
    let mut last = 0;
    for e in &events[..count] {
        valid = valid & well_formed(*e) & (last <= e.time);
        last = e.time;
    }
    valid
}

// Whether s may stand at a taken position.
fn valid_standing(closed: bool, count: usize, s: Standing) -> bool
    ensures { result ≡ valid_standing closed count s }
{
    match s {
        Standing::Idle => true,
        Standing::Open => !closed,
        Standing::Fulfilled(target) | Standing::Violated(target) => usize::from(target) <= count,
    }
}

// Of so many events those that are judged under a rule.
#[tactic(auto, unfolding(crate::specs::Records::events_judged))]
fn events_judged(rule: Rule, count: usize) -> usize
    ensures { result ≡ events_judged rule count }
{
    if is_overall(rule.code) { 0 } else { count }
}

// Whether s may stand at place p of a row, that is at position p + 1, if so many of `count` events
// are judged: idle may stand anywhere. A target is held against the event count itself.
fn valid_at(closed: bool, count: usize, judged: usize, p: usize, s: Standing) -> bool
    ensures { result ≡ cond (leb (p + 1) judged) (valid_standing closed count s) (is_idle s) }
{
    s.is_idle() || (p < judged && valid_standing(closed, count, s))
}

// The totals of the rules' rows, if every cell of them may stand where it does; most are idle. This
// loop and that of close are two: that one stores cells, and the check would copy them.
fn checked_rows(
    closed: bool,
    table: &Table,
    count: usize,
    cells: &[Cell; PLACES],
    mut totals: [Totals; RULES],
) -> Option<[Totals; RULES]>
    requires { (table.now.count ≤ most_rules) × (count ≤ most_events) }
    ensures { result ≡ cond (valid_standings closed table.now count cells.now) (Some (row_totals table.now.count count cells.now totals)) None }
{
    let end = table.count * EVENTS;
    for j in 0..end {
        let s = cells[j].standing;
        if s.is_idle() {
            continue;
        }
        let judged = events_judged(table.rules[j / EVENTS], count);
        if !valid_at(closed, count, judged, j % EVENTS, s) {
            return None;
        }
        totals[j / EVENTS] = with_standing(totals[j / EVENTS], s);
    }
    Some(totals)
}

// Whether s may stand at position 0, under a rule about the cycle.
fn valid_zero(closed: bool, count: usize, s: Standing) -> bool
    ensures { result ≡ valid_zero closed count s }
{
    !s.is_idle() & valid_standing(closed, count, s)
}

// Whether every rule about the cycle is judged there; position 0 of other rules is not read.
fn valid_overall(closed: bool, table: Table, count: usize, overall: [Cell; RULES]) -> bool
    requires { table.count ≤ most_rules }
    ensures { result ≡ valid_overall closed table count overall }
{
    table.rules[..table.count].iter().zip(&overall).all(|(rule, cell)| !is_overall(rule.code)
        || valid_zero(closed, count, cell.standing))
}

// Whether the stored totals of each rule are those counted.
fn valid_totals(rules: usize, stored: &[Totals; RULES], counted: &[Totals; RULES]) -> bool
    requires { rules ≤ most_rules }
    ensures { result ≡ all_below (λ k. same_totals (get_or stored.now k no_totals) (get_or counted.now k no_totals)) rules }
{
    stored[..rules] == counted[..rules]
}

// Whether nothing in the record is a cause of refusal 11. The run is lent: by value each part of it
// would be copied.
#[tactic(auto, using(declare::proofs::Tables::rules_within))]
pub fn is_valid(run: &Run) -> bool
    ensures { result ≡ valid_run run.now }
{
    let table = &run.table;
    if !valid_table(*table) || !valid_events(run.count, &run.events) {
        return false;
    }
    let begun = zero_totals(*table, run.overall, idle_totals());
    let Some(counted) = checked_rows(run.closed, table, run.count, &run.cells, begun) else {
        return false;
    };
    valid_overall(run.closed, *table, run.count, run.overall)
        && valid_totals(table.count, &run.totals, &counted)
}

// The same of a run by value.
pub fn valid_run(run: Run) -> bool
    ensures { result ≡ valid_run run }
{
    is_valid(&run)
}
