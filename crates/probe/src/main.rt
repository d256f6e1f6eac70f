// A program for tests: commands on standard input, answers on standard output. tests/PROBE.md has
// the format.
#![tactic(auto)]

use crate::command::Command;
use declare::Table;
use declare::slots::empty_table;
use files::read_full;
use run::Run;
use std::io;
use tally::Tally;

mod command; // command.rt: the fields of a command
mod table; // table.rt: the table under construction
mod record; // record.rt: single fields of the run
mod answer; // answer.rt: answers of 16 bytes
mod calls; // calls.rt: the library's calls on the run
mod dump; // dump.rt: standings, and the whole run
mod text; // text.rt: texts that follow a command
mod written; // written.rt: texts written into a buffer
mod day; // day.rt: the tally

#[derive(Clone, Copy)]
pub struct State {
    pub table: Table,
    pub run: Run,
    pub tally: Tally,
}

impl State {
    // A letter is the format's own name of its command, so the letters are not made an enum.
    fn obey(&mut self, rt: &(impl Input + Print), command: Command) -> io::Result<()> {
        match command.letter() {
            b't' | b'r' | b'n' | b'c' => table::change(&mut self.table, command),
            b'T' => self.run.table = self.table,
            b'C' | b'F' | b'E' | b'S' | b'O' | b'K' => record::change(&mut self.run, command),
            b'A' | b'b' | b'B' => day::change(rt, &mut self.tally, self.run, command)?,
            b's' => calls::start(rt, &mut self.run, self.table)?,
            b'e' | b'k' | b'x' | b'g' | b'o' => calls::call(rt, &mut self.run, command)?,
            b'R' => text::rules(rt, &mut self.table, command)?,
            b'Y' => text::cycle(rt, &mut self.run, command)?,
            b'N' => text::notebook(rt, &mut self.run, command)?,
            b'w' => written::rules(rt, self.table, command)?,
            b'W' => written::cycle(rt, self.run, command)?,
            b'v' => written::report(rt, self.run, command)?,
            b'p' => written::texts(rt, command)?,
            b'd' => dump::standings(rt, &self.run)?,
            b'z' => dump::overall(rt, &self.run)?,
            b'D' => dump::whole(rt, &self.run)?,
            _ => {}
        }
        Ok(())
    }
}

fn main(rt: HostRuntime) -> io::Result<()> {
    let mut state = State {
        table: empty_table(),
        run: record::empty(),
        tally: day::empty(),
    };
    // No input is longer: every loop is proved to end.
    for _ in 0..1000000000000u64 {
        let mut command = Command { bytes: [0; 32] };
        if read_full(&mut rt.reader(), &mut command.bytes) < 32 {
            break;
        }
        state.obey(&rt, command)?;
    }
    Ok(())
}
