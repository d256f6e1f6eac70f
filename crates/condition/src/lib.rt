// Comparisons, conditions and windows of a rule, for one event at a time, and whether an event
// that meets them may still come.
#![tactic(auto)]

pub mod comparison; // comparison.rt: readings, comparisons, and comparisons for one activation
pub mod four; // four.rt: up to four of a kind
pub mod conditions; // conditions.rt: conditions of up to four comparisons
pub mod window; // window.rt: time differences
pub mod bound; // bound.rt: a rule for one activation
pub mod reachability; // reachability.rt: whether an event that suits may still come
