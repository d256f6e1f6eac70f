// The calls of a running cycle.
use crate::weight::{joined, of_answer, of_standing, of_standings, of_totals, with_step};
use crate::written;
use cycle_text::Events;
use declare::slots::{empty_slot, empty_table};
use declare::{EVENTS, Event, RULES, Table};
use judge::cells::judge_cells;
use judge::overall::judge_overall;
use run::start::new_run;
use run::{Run, Step};
use standings::totals::zero_totals;

// The run of a table that has taken the first n events.
fn taken(table: Table, events: &[Event; EVENTS], n: usize) -> Step {
    events
        .iter()
        .take(n)
        .fold(Run::start(table), |step, event| step.run.take(*event))
}

// The same run, judged at once.
fn judged(table: Table, events: [Event; EVENTS], n: usize) -> Run {
    let run = new_run(table);
    let horizon = event_at(&events, n.saturating_sub(1)).time;
    let overall = judge_overall(true, table, events, n, horizon, run.overall);
    let begun = zero_totals(table, overall, run.totals);
    let next = judge_cells(true, table, events, n, horizon, run.cells, begun);
    let cells = next.cells;
    let totals = next.totals;
    Run {
        count: n,
        events,
        cells,
        overall,
        totals,
        ..run
    }
}

fn takes(run: &Run, event: Event, turns: usize) -> u64 {
    (0..turns).fold(0, |sum, _| with_step(sum, &run.take(event)))
}

fn notices(run: &Run, time: u32, turns: usize) -> u64 {
    (0..turns).fold(0, |sum, _| with_step(sum, &run.notice(u64::from(time))))
}

fn closes(run: &Run, turns: usize) -> u64 {
    (0..turns).fold(0, |sum, _| with_step(sum, &run.close()))
}

fn cycles(table: Table, events: &[Event; EVENTS], n: usize, turns: usize) -> u64 {
    (0..turns).fold(0, |sum, _| {
        let closed = taken(table, events, n).run.close();
        joined(sum, of_standings(&closed.run))
    })
}

fn standings(run: &Run, turns: usize) -> u64 {
    (0..turns).fold(0, |sum, turn| {
        let answer = run.standing(turn % RULES + 1, turn % EVENTS + 1);
        joined(sum, of_answer(answer, of_standing))
    })
}

fn totals(run: &Run, turns: usize) -> u64 {
    (0..turns).fold(0, |sum, turn| {
        joined(sum, of_answer(run.totals(turn % RULES + 1), of_totals))
    })
}

fn event_at(events: &[Event; EVENTS], p: usize) -> Event {
    events[p % EVENTS]
}

// What is read of a refused text: nothing.
fn no_events() -> Events {
    Events {
        count: 0,
        events: [empty_slot(); EVENTS],
    }
}

pub fn measured(letter: u8, turns: usize, rules: &[u8], cycle: &[u8]) -> u64 {
    let read = cycle_text::read_cycle(cycle).unwrap_or(no_events());
    let events = read.events;
    let n = read.count;
    let table = rule_text::read_rules(rules).unwrap_or(empty_table());
    let before_last = n.saturating_sub(1);
    let last = event_at(&events, before_last);
    match letter {
        b't' => takes(&judged(table, events, before_last), last, turns),
        b'l' => notices(&judged(table, events, n), last.time, turns),
        b'c' => cycles(table, &events, n, turns),
        b'x' => closes(&judged(table, events, n), turns),
        b'w' => written::cycles(&judged(table, events, n), turns),
        b'p' => written::rules(table, turns),
        b's' => standings(&judged(table, events, n), turns),
        _ => totals(&judged(table, events, n), turns),
    }
}
