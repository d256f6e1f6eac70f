// Texts that follow a command: of one above 65536 bytes the first 65536 are taken.
ghost use Rattle.std.specs.Prelude.{◌≤◌};

use crate::answer;
use crate::command::Command;
use declare::Table;
use files::read_full;
use notebook::Text;
use run::Run;
use std::io;

// The most bytes of a text or a buffer.
pub const BYTES: usize = 65536;

// As many bytes as the command names, at most BYTES.
pub fn size(bytes: u64) -> usize
    ensures { result ≤ 65536 }
{
    bytes.min(BYTES as u64) as usize
}

// An accepted table becomes the table under construction.
pub fn rules(rt: &(impl Input + Print), table: &mut Table, command: Command) -> io::Result<()> {
    let mut bytes = [0u8; BYTES];
    let text = &mut bytes[..size(command.number())];
    read_full(&mut rt.reader(), text);
    match rule_text::read_rules(text) {
        Ok(read) => {
            *table = read;
            answer::accepted(rt)
        }
        Err(cause) => answer::refused(rt, cause.refusal, cause.line, 0),
    }
}

// The run's events become those read.
pub fn cycle(rt: &(impl Input + Print), run: &mut Run, command: Command) -> io::Result<()> {
    let mut bytes = [0u8; BYTES];
    let text = &mut bytes[..size(command.number())];
    read_full(&mut rt.reader(), text);
    match cycle_text::read_cycle(text) {
        Ok(read) => {
            let events = read.events;
            run.count = read.count;
            run.events = events;
            answer::accepted(rt)
        }
        Err(cause) => answer::refused(rt, cause.refusal, cause.line, 0),
    }
}

fn text_number(text: Text) -> u8 {
    match text {
        Text::Rules => 1,
        Text::Cycle => 2,
    }
}

// Both texts that follow a command, the rules text first.
pub fn read_both(rt: &impl Input, rules: &mut [u8], cycle: &mut [u8]) {
    read_full(&mut rt.reader(), rules);
    read_full(&mut rt.reader(), cycle);
}

// An accepted run becomes the run.
pub fn notebook(rt: &(impl Input + Print), run: &mut Run, command: Command) -> io::Result<()> {
    let mut bytes = [0u8; BYTES];
    let rules = &mut bytes[..size(u64::from(command.low_half()))];
    let mut bytes = [0u8; BYTES];
    let cycle = &mut bytes[..size(u64::from(command.high_half()))];
    read_both(rt, rules, cycle);
    let read = notebook::read_notebook(rules, cycle);
    match read.outcome {
        Ok(()) => {
            *run = read.run;
            answer::accepted(rt)
        }
        Err(cause) => answer::refused(rt, cause.refusal, cause.line, text_number(cause.text)),
    }
}
