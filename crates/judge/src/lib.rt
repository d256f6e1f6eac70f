// The standings of a cycle's positions under its rules.
#![tactic(auto)]

pub mod template; // template.rt: the template of a code, and what a target says
mod columns; // columns.rt: the events by column
mod flags; // flags.rt: which events are activations of which rule
mod check; // check.rt: tests made ready for a scan
mod scan; // scan.rt: the nearest position that suits, and the neighbouring activations
mod span; // span.rt: the positions that a template reaches
mod target; // target.rt: a position as a target
pub mod cells; // cells.rt: all standings of a run at its events
pub mod overall; // overall.rt: those at position 0
