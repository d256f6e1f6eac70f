// The library's calls on the run.
use crate::answer;
use crate::command::Command;
use declare::Table;
use run::{Run, Step};
use std::io;

// An accepted run becomes the run.
pub fn start(rt: &impl Print, run: &mut Run, table: Table) -> io::Result<()> {
    let step = Run::start(table);
    if step.outcome.is_ok() {
        *run = step.run;
    }
    answer::called(rt, step.outcome, answer::done)
}

fn stepped(rt: &impl Print, run: &mut Run, step: Step) -> io::Result<()> {
    *run = step.run;
    answer::called(rt, step.outcome, answer::done)
}

// The commands e, k, x, g and o.
pub fn call(rt: &impl Print, run: &mut Run, command: Command) -> io::Result<()> {
    let before = *run;
    match command.letter() {
        b'e' => stepped(rt, run, before.take(command.event())),
        b'k' => stepped(rt, run, before.notice(command.number())),
        b'x' => stepped(rt, run, before.close()),
        b'g' => {
            let position = command.high_half() as usize;
            answer::called(
                rt,
                before.standing(command.place(), position),
                answer::standing,
            )
        }
        _ => answer::called(rt, before.totals(command.count()), answer::totals),
    }
}
