// All standings of a run at its events.
ghost use Rattle.std.specs.Prelude.{◌≡◌, ◌+◌, min};
ghost use Rattle.declare.specs.Limits.{most_events};
ghost use Rattle.declare.specs.Steps.{carried};
ghost use Rattle.standings.specs.Totals.{row_totals};
ghost use Rattle.judge.specs.Cells.{judged, judged_cells};
ghost use Rattle.judge.specs.Ready.{Ready};

use crate::columns::{Columns, columns_of};
use crate::flags::flags_of;
use crate::scan::nearest_suiting;
use crate::span::span_of;
use crate::target::target_of;
use crate::template::{decide, template_of};
use condition::bound::bound_of;
use condition::reachability::can_suit;
use declare::{EVENTS, Event, RULES, Rule, Standing, Table};
use standings::totals::{Totals, with_standing};
use standings::{Cell, CountedCells, PLACES};

// What becomes of the standing s of the event at place p. A decided one is carried over; of an
// activation, the nearest event that suits it decides, else whether one may still come. The row
// has a flag for each event. Inlined, it would make the loop over idle cells dearer.
#[inline(never)]
fn judge(
    columns: &Columns,
    events: &[Event],
    row: &[bool],
    running: bool,
    horizon: u32,
    rule: &Rule,
    p: usize,
    s: Standing,
) -> Standing
    requires { Ready columns.now events.now row.now rule.now p }
    ensures { result ≡ carried s (judged running rule.now events.now horizon (p + 1)) }
{
    if s.is_decided() {
        return s;
    }
    if !row[p] {
        return Standing::Idle;
    }
    let template = template_of(rule.code);
    let polarity = template.polarity;
    let span = span_of(row, template.reach, p);
    let bound = bound_of(*rule, events[p]);
    let n = row.len();
    let j = nearest_suiting(columns, &bound, span.start, p + 1, span.stop.min(n));
    if 0 < j {
        return decide(polarity, target_of(j));
    }
    if !running | (span.stop <= n) {
        return decide(polarity, 0);
    }
    if can_suit(bound, horizon) {
        return Standing::Open;
    }
    decide(polarity, 0)
}

// The cells after a step: under each rule of the table and for each of the first n events, a
// decided standing is carried over, and any other follows from the events. In a running cycle
// further events may come, none before the horizon. Most cells stay idle: those are passed over.
// The same pass counts them into the totals.
pub fn judge_cells(
    running: bool,
    table: Table,
    events: [Event; EVENTS],
    n: usize,
    horizon: u32,
    mut cells: [Cell; PLACES],
    mut totals: [Totals; RULES],
) -> CountedCells
    ensures { (result.cells ≡ judged_cells running table events n horizon cells) × (result.totals ≡ row_totals table.count (min n most_events) result.cells totals) }
{
    let width = n.min(EVENTS);
    let cycle = &events[..width];
    let columns = columns_of(cycle);
    // A place is that of a rule, a flag, a cell and totals at once, of which two are changed: by
    // index, since iterators over four would be no plainer.
    for k in 0..table.count.min(RULES) {
        let rule = &table.rules[k];
        let flags = flags_of(rule, cycle);
        let row = &flags[..width];
        for p in 0..width {
            let s = cells[k * EVENTS + p].standing;
            if row[p] | !s.is_idle() {
                let next = judge(&columns, cycle, row, running, horizon, rule, p, s);
                cells[k * EVENTS + p] = Cell { standing: next };
                totals[k] = with_standing(totals[k], next);
            }
        }
    }
    CountedCells { cells, totals }
}
