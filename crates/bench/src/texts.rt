// The readers of texts.
use crate::input;
use crate::weight::{joined, of_run, of_standings};

// The time in the last slot, 0 of a refused text.
fn of_cycle(cycle: &[u8]) -> u64 {
    cycle_text::read_cycle(cycle).map_or(0, |read| u64::from(read.events[255].time))
}

pub fn cycles(cycle: &[u8], turns: usize) -> u64 {
    (0..turns).fold(0, |sum, _| joined(sum, of_cycle(cycle)))
}

// The window of the last slot, 0 of a refused text.
fn of_rules(text: &[u8]) -> u64 {
    rule_text::read_rules(text).map_or(0, |table| u64::from(table.rules[15].window.from))
}

pub fn rules(text: &[u8], turns: usize) -> u64 {
    (0..turns).fold(0, |sum, _| joined(sum, of_rules(text)))
}

// The notebooks of all cycles, once; of each run the first cell, or every standing.
fn all_notebooks(letter: u8, rules: &[u8], rest: &[u8], cycles: usize) -> u64 {
    let mut sum = 0;
    let mut at = 0;
    for _ in 0..cycles {
        let cycle = input::cycle_of(line::part_from(rest, at));
        let run = notebook::read_notebook(rules, cycle).run;
        let weight = if letter == b'n' {
            of_run(&run)
        } else {
            of_standings(&run)
        };
        sum = joined(sum, weight);
        at = input::next_at(rest, at);
    }
    sum
}

pub fn notebooks(letter: u8, rules: &[u8], rest: &[u8], cycles: usize, turns: usize) -> u64 {
    (0..turns).fold(
        0,
        |sum, _| joined(sum, all_notebooks(letter, rules, rest, cycles)),
    )
}
