// The notebook: a finished cycle, read from its two texts.
#![tactic(auto)]

ghost use Rattle.std.specs.Prelude.{◌≡◌};
ghost use Rattle.declare.specs.Refusals.{number_of};
ghost use Rattle.cycle_text.specs.Cycle.{cycle_text_of};
ghost use Rattle.notebook.specs.Notebook.{not_read, read_with, notebook_of, notebook_reply, notebook_run, Reads};

use cycle_text::read_cycle;
use declare::slots::empty_table;
use declare::{Refusal, Table};
use line::LineRefusal;
use rule_text::read_rules;
use run::Run;
use run::start::new_run;

#[derive(Clone, Copy)]
pub enum Text {
    Rules,
    Cycle,
}

// Why a text is refused, and at which line.
#[derive(Clone, Copy)]
pub struct TextRefusal {
    pub text: Text,
    pub refusal: Refusal,
    pub line: usize,
}

// The run is closed, or one of the texts is refused. A run stands beside either outcome
// (notebook_run), so it is not in it.
#[derive(Clone, Copy)]
pub struct Notebook {
    pub outcome: Result<(), TextRefusal>,
    pub run: Run,
}

// A refusal of a text, beside the new run of the table.
fn refused(table: Table, text: Text, cause: LineRefusal) -> Notebook
    ensures { Reads (not_read text (number_of cause.refusal) cause.line) table result }
{
    Notebook {
        outcome: Err(TextRefusal {
            text,
            refusal: cause.refusal,
            line: cause.line,
        }),
        run: new_run(table),
    }
}

// The closed run of a table and a cycle text, or the first refusal of the text.
fn read_with(table: Table, cycle: &[u8]) -> Notebook
    ensures { Reads (read_with table (cycle_text_of cycle.now)) table result }
{
    match read_cycle(cycle) {
        Ok(read) => {
            let events = read.events;
            Notebook {
                outcome: Ok(()),
                run: Run::finished(table, read.count, events),
            }
        },
        Err(cause) => refused(table, Text::Cycle, cause),
    }
}

// The closed run of two texts. Refused with the first refusal of the rules text, else of the cycle
// text.
pub fn read_notebook(rules: &[u8], cycle: &[u8]) -> Notebook
    ensures result_value { notebook_reply result ≡ notebook_of rules.now cycle.now }
    ensures run_value { result.run ≡ notebook_run rules.now cycle.now }
{
    match read_rules(rules) {
        Ok(table) => read_with(table, cycle),
        Err(cause) => refused(empty_table(), Text::Rules, cause),
    }
}
