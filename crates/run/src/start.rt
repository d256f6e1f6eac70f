// The call start: the run for a table of rules.
ghost use Rattle.std.specs.Prelude.{◌≡◌};
ghost use Rattle.run.specs.Answers.{step_answer};
ghost use Rattle.run.specs.Start.{new_run, start_of, started};

use crate::{Run, Step};
use declare::slots::{empty_slot, empty_table};
use declare::{EVENTS, Refusal, Table};
use judge::overall::judge_overall;
use limits::table::valid_table;
use standings::totals::{idle_totals, zero_totals};
use standings::{idle_cells, idle_overall};

// The run that has taken nothing yet.
pub fn new_run(table: Table) -> Run
    ensures { result ≡ new_run table }
{
    let slot = empty_slot();
    let events = [slot; EVENTS];
    let overall = judge_overall(true, table, events, 0, 0, idle_overall());
    let totals = zero_totals(table, overall, idle_totals());
    Run {
        closed: false,
        table,
        count: 0,
        events,
        cells: idle_cells(),
        overall,
        totals,
        clock: 0,
    }
}

impl Run {
    // The run for a table. Refused with 11 if the table is not valid; beside that stands the run
    // for the empty table.
    pub fn start(table: Table) -> Step
        ensures { (step_answer result ≡ start_of table) × (result.run ≡ started table) }
    {
        if !valid_table(table) {
            return Step {
                outcome: Err(Refusal::InvalidRecord),
                run: new_run(empty_table()),
            };
        }
        Step {
            outcome: Ok(()),
            run: new_run(table),
        }
    }
}
