// Standings, and the whole run.
ghost use Rattle.std.specs.Prelude.{◌≤◌, length};
ghost use Rattle.declare.specs.Limits.{most_events};

use crate::answer::{standing_bytes, totals_bytes};
use declare::{Comparison, Condition, EVENTS, Event, RULES, Reference, Rule};
use run::Run;
use standings::Cell;
use std::io;

// At most a row of cells, in one piece.
fn write_cells(rt: &impl Print, cells: &[Cell]) -> io::Result<()>
    requires { length cells.now ≤ most_events }
{
    let mut out = [0u8; 1024];
    for (p, cell) in cells.iter().enumerate() {
        let [kind, zero, low, high] = standing_bytes(cell.standing);
        out[p * 4] = kind;
        out[p * 4 + 1] = zero;
        out[p * 4 + 2] = low;
        out[p * 4 + 3] = high;
    }
    rt.write_all(&out[..cells.len() * 4])
}

// The first n cells of the first rows.
fn write_rows(rt: &impl Print, run: &Run, rows: usize, n: usize) -> io::Result<()>
    requires { n ≤ most_events }
{
    for row in run.cells.chunks(EVENTS).take(rows) {
        write_cells(rt, &row[..n.min(row.len())])?;
    }
    Ok(())
}

pub fn standings(rt: &impl Print, run: &Run) -> io::Result<()> {
    write_rows(rt, run, run.table.count.min(RULES), run.count.min(EVENTS))
}

// Position 0 of each rule slot.
pub fn overall(rt: &impl Print, run: &Run) -> io::Result<()> {
    write_cells(rt, &run.overall)
}

fn write_comparison(rt: &impl Print, c: &Comparison) -> io::Result<()> {
    let (kind, reading, constant) = match c.reference {
        Reference::Constant(k) => (0, 0, k),
        Reference::Activation(g, k) => (1, g, k),
    };
    let [k0, k1, k2, k3] = constant.to_le_bytes();
    rt.write_all(&[c.reading, c.operator as u8, kind, reading, k0, k1, k2, k3])
}

fn write_condition(rt: &impl Print, c: &Condition) -> io::Result<()> {
    rt.write_all(&[c.count, 0, 0, 0])?;
    write_comparison(rt, &c.first)?;
    write_comparison(rt, &c.second)?;
    write_comparison(rt, &c.third)?;
    write_comparison(rt, &c.fourth)
}

fn write_rule(rt: &impl Print, rule: &Rule) -> io::Result<()> {
    let window = rule.window;
    let ends = u8::from(window.until.is_some());
    rt.write_all(&[rule.code, rule.activation, rule.target, ends])?;
    rt.write_all(&window.from.to_le_bytes())?;
    rt.write_all(&window.until.unwrap_or(0).to_le_bytes())?;
    write_condition(rt, &rule.condition)?;
    write_condition(rt, &rule.correlation)
}

// Bit k − 1 is set if reading k is blank.
fn blanks(e: &Event) -> u8 {
    u8::from(e.reading1.is_none())
        + 2 * u8::from(e.reading2.is_none())
        + 4 * u8::from(e.reading3.is_none())
        + 8 * u8::from(e.reading4.is_none())
}

fn write_event(rt: &impl Print, e: &Event) -> io::Result<()> {
    rt.write_all(&e.time.to_le_bytes())?;
    rt.write_all(&[e.activity, blanks(e), 0, 0])?;
    for reading in [e.reading1, e.reading2, e.reading3, e.reading4] {
        rt.write_all(&reading.unwrap_or(0).to_le_bytes())?;
    }
    Ok(())
}

pub fn whole(rt: &impl Print, run: &Run) -> io::Result<()> {
    rt.write_all(&[u8::from(run.closed), 0, 0, 0])?;
    rt.write_all(&run.clock.to_le_bytes())?;
    rt.write_all(&run.count.to_le_bytes())?;
    rt.write_all(&run.table.count.to_le_bytes())?;
    for rule in &run.table.rules {
        write_rule(rt, rule)?;
    }
    for event in &run.events {
        write_event(rt, event)?;
    }
    write_rows(rt, run, RULES, EVENTS)?;
    write_cells(rt, &run.overall)?;
    for totals in &run.totals {
        rt.write_all(&totals_bytes(*totals))?;
    }
    Ok(())
}
