// The tally.
ghost use Rattle.tally.specs.Tally.{Absorbs};

use crate::answer;
use crate::command::Command;
use run::Run;
use std::io;
use tally::{Counted, Sum, Tally, absorb, counted_of};

pub fn empty() -> Tally {
    Tally {
        cycles: 0,
        activations: 0,
        fulfilled: 0,
        violated: 0,
    }
}

fn set(command: Command) -> Tally {
    Tally {
        cycles: command.bits(16),
        activations: command.bits(20),
        fulfilled: command.bits(24),
        violated: command.bits(28),
    }
}

// `absorb` on a local that is lent for the call.
fn absorbed_in_place(tally: Tally, counted: Counted) -> Sum
    ensures { Absorbs tally counted result.tally result.outcome }
{
    let mut after = tally;
    let outcome = absorb(&mut after, counted);
    Sum {
        tally: after,
        outcome,
    }
}

fn absorbing(rt: &impl Print, tally: &mut Tally, run: Run, rule: usize) -> io::Result<()> {
    let sum = absorbed_in_place(*tally, counted_of(run, rule));
    *tally = sum.tally;
    answer::called(rt, sum.outcome, answer::done)
}

fn write(rt: &impl Print, tally: Tally) -> io::Result<()> {
    rt.write_all(&tally.cycles.to_le_bytes())?;
    rt.write_all(&tally.activations.to_le_bytes())?;
    rt.write_all(&tally.fulfilled.to_le_bytes())?;
    rt.write_all(&tally.violated.to_le_bytes())
}

// The commands A, b and B.
pub fn change(rt: &impl Print, tally: &mut Tally, run: Run, command: Command) -> io::Result<()> {
    match command.letter() {
        b'A' => {
            *tally = set(command);
            Ok(())
        }
        b'b' => absorbing(rt, tally, run, command.count()),
        _ => write(rt, *tally),
    }
}
