// The rules of a table and the events of a run, written as texts into lent buffers.
#![tactic(auto)]

ghost use Rattle.writer.specs.Writer.{WritesRules, WritesCycle};

use buffer::put::Output;
use buffer::write;
use declare::{Refusal, Table};
use limits::table::valid_table;
use run::Run;
use run::record::valid_run;

mod field; // field.rt: fields of small numbers and of readings
mod event; // event.rt: the lines of events
mod comparison; // comparison.rt: comparisons
mod conditions; // conditions.rt: conditions
mod rule; // rule.rt: the lines of rules

// The bytes of the longest texts: 155 a rule, 62 an event. Such a buffer is never too short.
pub const RULES_BYTES: usize = 2480;

pub const CYCLE_BYTES: usize = 15872;

// The rules of the table. Refused with 11 or 15.
pub fn write_rules(table: Table, out: &mut [u8]) -> Result<usize, Refusal>
    ensures { WritesRules table out.old out.new result }
{
    if !valid_table(table) {
        return Err(Refusal::InvalidRecord);
    }
    let mut text = [0u8; RULES_BYTES];
    let mut put = Output {
        bytes: &mut text,
        at: 0,
    };
    rule::put_rules(&mut put, &table.rules[..table.count]);
    let length = put.at;
    write(&text[..length], out)
}

// The events of the run, closed or not. Refused with 11 or 15.
pub fn write_cycle(run: Run, out: &mut [u8]) -> Result<usize, Refusal>
    ensures { WritesCycle run out.old out.new result }
{
    if !valid_run(run) {
        return Err(Refusal::InvalidRecord);
    }
    let events = run.events;
    let mut text = [0u8; CYCLE_BYTES];
    let mut put = Output {
        bytes: &mut text,
        at: 0,
    };
    event::put_events(&mut put, &events[..run.count]);
    let length = put.at;
    write(&text[..length], out)
}
