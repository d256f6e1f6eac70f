// Records written as texts.
use crate::weight::{joined, of_answer, of_length, of_text};
use declare::{Refusal, Table};
use run::Run;

// The answers of so many writes into one buffer, and the bytes that it then has.
fn written<F: FnMut(&mut [u8]) -> Result<usize, Refusal>>(turns: usize, mut write: F) -> u64
    requires { F.IsAlwaysCallable write }
{
    let mut out = [0u8; 65536];
    let mut sum = 0;
    for _ in 0..turns {
        sum = joined(sum, of_answer(write(&mut out), of_length));
    }
    joined(sum, of_text(&out))
}

pub fn cycles(run: &Run, turns: usize) -> u64 {
    written(turns, |out: &mut [u8]| writer::write_cycle(*run, out))
}

pub fn rules(table: Table, turns: usize) -> u64 {
    written(turns, |out: &mut [u8]| writer::write_rules(table, out))
}
