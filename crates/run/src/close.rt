// The call close: the open standings are decided, and the run takes no more events.
ghost use Rattle.std.specs.Prelude.{◌≡◌, cond, ◌≤◌};
ghost use Rattle.declare.specs.Answers.{after_call};
ghost use Rattle.declare.specs.Limits.{most_rules};
ghost use Rattle.declare.specs.Standings.{is_open};
ghost use Rattle.declare.specs.Templates.{polarity_of};
ghost use Rattle.declare.specs.Verdicts.{decided};
ghost use Rattle.run.specs.Answers.{step_answer};
ghost use Rattle.run.specs.Close.{ClosedCells, close_of};

use crate::record::is_valid;
use crate::{Run, Step, running};
use declare::{EVENTS, RULES, Rule, Standing, Table};
use judge::overall::judge_overall;
use judge::template::{decide, template_of};
use standings::totals::{Totals, with_standing, zero_totals};
use standings::{Cell, CountedCells, PLACES};

// What the standing s of an event becomes: an open one what the template says without a target.
fn closed(rule: Rule, s: Standing) -> Standing
    ensures { result ≡ cond (is_open s) (decided (polarity_of rule) 0) s }
{
    if s.is_open() {
        decide(template_of(rule.code).polarity, 0)
    } else {
        s
    }
}

// All cells after closing, and counted; only the rows of the rules are gone through. Most cells are
// idle: those are passed over.
fn closed_cells(
    table: Table,
    mut cells: [Cell; PLACES],
    mut totals: [Totals; RULES],
) -> CountedCells
    requires { table.count ≤ most_rules }
    ensures { ClosedCells table cells totals result }
{
    let end = table.count * EVENTS;
    for j in 0..end {
        let s = cells[j].standing;
        if s.is_idle() {
            continue;
        }
        let next = closed(table.rules[j / EVENTS], s);
        cells[j] = Cell { standing: next };
        totals[j / EVENTS] = with_standing(totals[j / EVENTS], next);
    }
    CountedCells { cells, totals }
}

impl Run {
    // The run with its open standings decided, and closed. Refused with 11 or 9, the run then as it
    // was.
    pub fn close(self) -> Step
        ensures { (step_answer result ≡ close_of self) × (result.run ≡ after_call self (close_of self)) }
    {
        if let Err(cause) = running(is_valid(&self), self.closed) {
            return self.refused(cause);
        }
        let table = self.table;
        let overall = judge_overall(false, table, self.events, self.count, 0, self.overall);
        let begun = zero_totals(table, overall, self.totals);
        let next = closed_cells(table, self.cells, begun);
        let cells = next.cells;
        let totals = next.totals;
        Step {
            outcome: Ok(()),
            run: Run {
                closed: true,
                cells,
                overall,
                totals,
                ..self
            },
        }
    }
}
