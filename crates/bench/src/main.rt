// A program for measurements: one workload, any number of times. docs/PERFORMANCE.md says what is
// measured.
//
// Standard input: LETTER TAB turns TAB cycles TAB bytes LF, then the rules text of so many bytes,
// then each cycle: bytes LF, then the cycle text of so many bytes. The whole input has at most
// 65,536 bytes. Standard output: one number, made of the answers. Letters: t the last event of the
// first cycle is taken `turns` times, each time by the run of the events before it; l the run of
// its events gets a clock notice at the last one's time; c the first cycle is run from start to
// close; x closed; s its standings are asked; o its totals; r its text is read; u the rules text
// is; n the notebook of each cycle is read; v the same, and every standing is looked at; w the
// first cycle's events are written as a text; p the rules are.
#![tactic(auto)]

mod input; // input.rt: the parts of the input
mod weight; // weight.rt: answers made numbers
mod cycle; // cycle.rt: the calls of a running cycle
mod texts; // texts.rt: the readers of texts
mod written; // written.rt: records written as texts

use files::read_full;
use std::io;

fn measured(letter: u8, turns: usize, cycles: usize, rules: &[u8], rest: &[u8]) -> u64 {
    match letter {
        b'r' => texts::cycles(input::cycle_of(rest), turns),
        b'u' => texts::rules(rules, turns),
        b'n' | b'v' => texts::notebooks(letter, rules, rest, cycles, turns),
        _ => cycle::measured(letter, turns, rules, input::cycle_of(rest)),
    }
}

fn work(text: &[u8]) -> u64 {
    let letter = line::byte_at(text, 0);
    let part = line::part_from(text, 2);
    let turns = input::number(part, b'\t');
    let part = input::after(part, b'\t');
    let cycles = input::number(part, b'\t');
    let part = input::after(part, b'\t');
    let bytes = input::number(part, b'\n');
    let part = input::after(part, b'\n');
    let rules = line::part_before(part, bytes);
    let rest = line::part_from(part, bytes);
    measured(letter, turns, cycles, rules, rest)
}

fn main(rt: HostRuntime) -> io::Result<()> {
    let mut text = [0u8; 65536];
    let n = read_full(&mut rt.reader(), &mut text);
    let sum = work(&text[..n]);
    print!(rt; "{sum}")
}
