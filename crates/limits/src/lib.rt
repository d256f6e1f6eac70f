// Whether events, rules and tables are within document 01's limits: what decides 3 of events, and
// 11 of tables.
#![tactic(auto)]

pub mod event; // event.rt: events
pub mod rule; // rule.rt: rules
pub mod table; // table.rt: tables
