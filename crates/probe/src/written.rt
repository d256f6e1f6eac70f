// Texts written into a buffer, of the run and the table, or of the two texts that follow a command.
use crate::answer;
use crate::command::Command;
use crate::text::{BYTES, read_both, size};
use declare::{Refusal, Table};
use run::Run;
use std::io;

// What each byte of the buffer is before the call.
const BEFORE: u8 = 165;

// What `write` answers for a buffer of so many bytes, then the buffer.
fn into_buffer<P: Print, F: FnOnce(&mut [u8]) -> Result<usize, Refusal>>(
    rt: &P,
    room: usize,
    write: F,
) -> io::Result<()>
    requires { F.IsAlwaysCallable write }
{
    let mut bytes = [BEFORE; BYTES];
    let out = &mut bytes[..room.min(BYTES)];
    answer::called(rt, write(out), answer::written)?;
    rt.write_all(out)
}

pub fn rules(rt: &impl Print, table: Table, command: Command) -> io::Result<()> {
    let room = size(command.number());
    into_buffer(rt, room, |out: &mut [u8]| writer::write_rules(table, out))
}

pub fn cycle(rt: &impl Print, run: Run, command: Command) -> io::Result<()> {
    let room = size(command.number());
    into_buffer(rt, room, |out: &mut [u8]| writer::write_cycle(run, out))
}

pub fn report(rt: &impl Print, run: Run, command: Command) -> io::Result<()> {
    let room = size(command.number());
    into_buffer(rt, room, |out: &mut [u8]| printing::write_report(run, out))
}

// The lengths of the texts take all of n: the buffer's is r1.
pub fn texts(rt: &(impl Input + Print), command: Command) -> io::Result<()> {
    let mut bytes = [0u8; BYTES];
    let rules = &mut bytes[..size(u64::from(command.low_half()))];
    let mut bytes = [0u8; BYTES];
    let cycle = &mut bytes[..size(u64::from(command.high_half()))];
    read_both(rt, rules, cycle);
    let room = size(u64::from(command.bits(16)));
    into_buffer(
        rt,
        room,
        |out: &mut [u8]| printing::print_texts(rules, cycle, out),
    )
}
