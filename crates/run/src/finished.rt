// A finished cycle, closed at once.
ghost use Rattle.std.specs.Prelude.{◌≡◌};
ghost use Rattle.run.specs.Close.{finished_run};

use crate::Run;
use declare::{EVENTS, Event, Table};
use judge::cells::judge_cells;
use judge::overall::judge_overall;
use standings::totals::{idle_totals, zero_totals};
use standings::{idle_cells, idle_overall};

impl Run {
    // The closed run of a table and the events of a whole cycle, which it does not check. Each
    // position is judged once, on the whole cycle. The horizon is not looked at: nothing more
    // comes.
    pub fn finished(table: Table, count: usize, events: [Event; EVENTS]) -> Run
        ensures { result ≡ finished_run table count events }
    {
        let overall = judge_overall(false, table, events, count, 0, idle_overall());
        let begun = zero_totals(table, overall, idle_totals());
        let judged = judge_cells(false, table, events, count, 0, idle_cells(), begun);
        let cells = judged.cells;
        let totals = judged.totals;
        Run {
            closed: true,
            table,
            count,
            events,
            cells,
            overall,
            totals,
            clock: 0,
        }
    }
}
