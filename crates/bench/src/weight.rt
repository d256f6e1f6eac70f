// Answers made numbers, so that none of them is left out by the compiler.
use declare::{Refusal, Standing};
use run::{Run, Step};
use standings::Cell;
use standings::totals::Totals;
use std::num::wrapping_add_u64;

pub fn joined(sum: u64, x: u64) -> u64 {
    wrapping_add_u64(sum % 4294967296 * 31, x)
}

pub fn of_standing(s: Standing) -> u64 {
    match s {
        Standing::Idle => 0,
        Standing::Open => 1,
        Standing::Fulfilled(j) => joined(2, u64::from(j)),
        Standing::Violated(j) => joined(3, u64::from(j)),
    }
}

// Of an answer: the weight of its value, or the refusal's number.
pub fn of_answer<T, F: FnOnce(T) -> u64>(answer: Result<T, Refusal>, weight: F) -> u64
    requires { F.IsAlwaysCallable weight }
{
    match answer {
        Ok(value) => weight(value),
        Err(refusal) => u64::from(refusal.number()),
    }
}

pub fn of_totals(t: Totals) -> u64 {
    joined(
        joined(u64::from(t.activations), u64::from(t.fulfilled)),
        u64::from(t.open),
    )
}

pub fn of_length(length: usize) -> u64 {
    length as u64
}

// Every byte of a buffer.
pub fn of_text(bytes: &[u8]) -> u64 {
    bytes
        .iter()
        .fold(0, |sum, byte| joined(sum, u64::from(*byte)))
}

// The first cell and the count only.
pub fn of_run(run: &Run) -> u64 {
    joined(of_standing(run.cells[0].standing), run.count as u64)
}

// The sum with the outcome and the run of one step more.
pub fn with_step(sum: u64, step: &Step) -> u64 {
    let outcome = of_answer(step.outcome, |()| 0);
    joined(joined(sum, outcome), of_run(&step.run))
}

fn of_cells(cells: &[Cell]) -> u64 {
    cells
        .iter()
        .fold(0, |sum, cell| joined(sum, of_standing(cell.standing)))
}

// Every cell, and position 0 of every rule.
pub fn of_standings(run: &Run) -> u64 {
    joined(of_cells(&run.cells), of_cells(&run.overall))
}
