// A running cycle: its record, and the calls start, take, notice, standing, totals and close.
#![tactic(auto)]

ghost use Rattle.std.specs.Prelude.{◌≡◌, take};
ghost use Rattle.declare.specs.Answers.{answer_of};
ghost use Rattle.declare.specs.Continuations.{horizon};
ghost use Rattle.run.specs.Records.{horizon_of, with_events, with_clock};
ghost use Rattle.run.specs.Calls.{ready, judged_run};

use declare::{EVENTS, Event, RULES, Refusal, Table};
use judge::cells::judge_cells;
use judge::overall::judge_overall;
use standings::totals::{Totals, zero_totals};
use standings::{Cell, PLACES};

pub mod record; // record.rt: whether a record is valid
pub mod start; // start.rt: start
mod take; // take.rt: take
mod notice; // notice.rt: notice
mod close; // close.rt: close
mod finished; // finished.rt: a finished cycle, closed at once
mod queries; // queries.rt: standing and totals

// A run: its rules, the first `count` of its event slots, the standings, at its events and at
// position 0, the totals of each rule, and the time of the last clock notice. Arrays with a count
// beside them, as document 01 has it: "by value holding an array of 256 event structs".
#[derive(Clone, Copy)]
pub struct Run {
    pub closed: bool,
    pub table: Table,
    pub count: usize,
    pub events: [Event; EVENTS],
    pub cells: [Cell; PLACES],
    pub overall: [Cell; RULES],
    pub totals: [Totals; RULES],
    pub clock: u32,
}

// What start, take, notice and close did, and the next run, after a refusal the same one. The run
// stands beside the outcome, and not in it: document 01, "returning the run beside the answer". In
// these calls no checks are handed the run, nor give it back: each such step would copy it.
#[derive(Clone, Copy)]
pub struct Step {
    pub outcome: Result<(), Refusal>,
    pub run: Run,
}

// The earliest time that an event may have after the first `count` of these and a notice.
fn horizon(count: usize, events: [Event; EVENTS], clock: u32) -> u32
    ensures { result ≡ horizon (record { events = take count events; clock = clock }) }
{
    let n = count.min(EVENTS);
    if n == 0 {
        return clock;
    }
    events[n - 1].time.max(clock)
}

// The checks that take, notice and close begin with: refused with 11 or 9.
fn running(valid: bool, closed: bool) -> Result<(), Refusal>
    ensures { answer_of result ≡ ready valid closed }
{
    if !valid {
        return Err(Refusal::InvalidRecord);
    }
    if closed {
        return Err(Refusal::WrongPhase);
    }
    Ok(())
}

impl Run {
    // A call refused: the run stays as it was.
    fn refused(self, cause: Refusal) -> Step
        ensures { result ≡ record { outcome = Err cause; run = self } }
    {
        Step {
            outcome: Err(cause),
            run: self,
        }
    }

    // A call accepted: the run with these events and this kept time, its standings judged anew, the
    // decided ones kept, and counted. No further event comes before `horizon`.
    fn accepted(self, count: usize, events: [Event; EVENTS], clock: u32, horizon: u32) -> Step
        requires { horizon ≡ horizon_of (with_clock (with_events self count events) clock) }
        ensures { result ≡ record { outcome = Ok tt; run = judged_run (with_clock (with_events self count events) clock) } }
    {
        let table = self.table;
        let overall = judge_overall(true, table, events, count, horizon, self.overall);
        let begun = zero_totals(table, overall, self.totals);
        let next = judge_cells(true, table, events, count, horizon, self.cells, begun);
        let cells = next.cells;
        let totals = next.totals;
        Step {
            outcome: Ok(()),
            run: Run {
                count,
                events,
                cells,
                overall,
                totals,
                clock,
                ..self
            },
        }
    }
}
