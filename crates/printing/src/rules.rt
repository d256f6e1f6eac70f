// The lines of rules: those of a rule's activations, then its totals.
ghost use Rattle.std.specs.Prelude.{[], ◌∷◌, ◌++◌, ◌≤◌, length};
ghost use Rattle.declare.specs.Limits.{most_rules, most_events};
ghost use Rattle.standings.specs.Places.{standing_from, with_zero};
ghost use Rattle.standings.specs.Totals.{totals_by};
ghost use Rattle.line.specs.Texts.{written_line, written_text};
ghost use Rattle.printing.specs.Lines.{line_fields};
ghost use Rattle.printing.specs.Report.{event_lines, total_of, report_of};
ghost use Rattle.buffer.specs.Puts.{Put};

use crate::activation::put_position;
use buffer::put::Output;
use declare::{EVENTS, Standing};
use line::{LINE_FEED, TAB};
use run::Run;
use standings::totals::{Totals, no_totals, with_standing};
use standings::{Cell, zero_in};

fn put_total(out: &mut Output<'_>, rule: u32, totals: Totals)
    ensures { Put (written_line line_fields (total_of rule totals)) out.old out.new }
{
    out.put_bytes(b"total\t");
    out.put_number_field(rule, TAB);
    out.put_number_field(u32::from(totals.activations), TAB);
    out.put_number_field(u32::from(totals.fulfilled), TAB);
    out.put_number_field(u32::from(totals.violated), LINE_FEED);
}

// The lines of a rule's events, which have the cells of the row, and of its totals, position 0
// included: in one pass, which also counts them.
fn put_events(out: &mut Output<'_>, rule: u32, zero: Standing, row: &[Cell])
    requires { length row.now ≤ most_events }
    ensures { Put (written_text line_fields (event_lines rule (with_zero zero (standing_from row.now 0)) (length row.now) ++ (total_of rule (totals_by (with_zero zero (standing_from row.now 0)) (length row.now)) ∷ []))) out.old out.new }
{
    let mut totals = with_standing(no_totals(), zero);
    for (p, cell) in row.iter().enumerate() {
        put_position(out, rule, (p + 1) as u32, cell.standing);
        totals = with_standing(totals, cell.standing);
    }
    put_total(out, rule, totals);
}

// The lines of all rules: of each position 0 first.
pub fn put_report(out: &mut Output<'_>, run: &Run)
    requires { (run.now.table.count ≤ most_rules) × (run.now.count ≤ most_events) }
    ensures { Put (report_of run.now) out.old out.new }
{
    // k is the number that is printed, and the place in three arrays.
    for k in 0..run.table.count {
        let zero = zero_in(run.table, run.overall, k + 1);
        let first = k * EVENTS;
        put_position(out, (k + 1) as u32, 0, zero);
        put_events(
            out,
            (k + 1) as u32,
            zero,
            &run.cells[first..first + run.count],
        );
    }
}
