// Single fields of the run.
use crate::command::Command;
use declare::slots::empty_table;
use declare::{EVENTS, RULES, Standing};
use run::Run;
use standings::totals::Totals;
use standings::{Cell, PLACES};

pub fn empty() -> Run {
    Run::start(empty_table()).run
}

// The lower 16 bits.
fn short(x: u32) -> u16 {
    (x % 65536) as u16
}

// The kinds have the numbers of tests/PROBE.md.
fn standing(kind: u8, target: u16) -> Standing {
    match kind {
        0 => Standing::Idle,
        1 => Standing::Open,
        2 => Standing::Fulfilled(target),
        _ => Standing::Violated(target),
    }
}

// The cells of events, and after them those of position 0.
fn change_cell(run: &mut Run, command: Command) {
    let at = command.place();
    let cell = Cell {
        standing: standing(command.bytes[1], short(command.high_half())),
    };
    if at < PLACES {
        run.cells[at] = cell;
    } else if at - PLACES < RULES {
        run.overall[at - PLACES] = cell;
    }
}

// The stored totals of a rule slot.
fn change_totals(run: &mut Run, command: Command) {
    let at = usize::from(command.bytes[1]);
    if at < RULES {
        run.totals[at] = Totals {
            activations: short(command.bits(16)),
            fulfilled: short(command.bits(20)),
            violated: short(command.bits(24)),
            open: short(command.bits(28)),
        };
    }
}

fn change_event(run: &mut Run, command: Command) {
    let at = command.place();
    if at < EVENTS {
        run.events[at] = command.event();
    }
}

// The commands C, F, K, E, O and S.
pub fn change(run: &mut Run, command: Command) {
    match command.letter() {
        b'C' => run.count = command.count(),
        b'F' => run.closed = command.bytes[1] != 0,
        b'K' => run.clock = command.low_half(),
        b'E' => change_event(run, command),
        b'O' => change_totals(run, command),
        _ => change_cell(run, command),
    }
}
