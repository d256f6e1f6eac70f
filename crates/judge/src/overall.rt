// The standings of rules about the cycle as such, at position 0.
ghost use Rattle.std.specs.Prelude.{◌≡◌, true, ◌&&◌, ◌≤◌, length};
ghost use Rattle.declare.specs.Limits.{most_events};
ghost use Rattle.declare.specs.Lists.{first_up_to};
ghost use Rattle.declare.specs.Conditions.{met};
ghost use Rattle.declare.specs.Events.{first_time};
ghost use Rattle.declare.specs.Overall.{is_overall, formula, settled};
ghost use Rattle.declare.specs.Suits.{within, between};
ghost use Rattle.declare.specs.Verdicts.{occurs_at, fulfilled_if};
ghost use Rattle.declare.specs.Reachability.{can_occur};
ghost use Rattle.judge.specs.Cells.{judged, judged_overall};
ghost use Rattle.judge.specs.Occurrences.{earlier, target_occurrence};

use crate::target::target_of;
use condition::bound::cycle_bound;
use condition::conditions::met;
use condition::reachability::can_suit;
use condition::window::{between, within};
use declare::codes::{counts_target, is_overall, overall_of};
use declare::{EVENTS, Event, Overall, RULES, Rule, Standing, Table};
use standings::Cell;

// What the template's formula says, by whether each activity occurs.
fn formula(kind: Overall, activation: bool, target: bool) -> bool
    ensures { result ≡ formula kind activation target }
{
    match kind {
        Overall::Existence => activation,
        Overall::Absence => !activation,
        Overall::Choice => activation | target,
        Overall::ExclusiveChoice => (activation | target) & !(activation & target),
    }
}

// Whether no further occurrence changes that.
fn settled(kind: Overall, activation: bool, target: bool) -> bool
    ensures { result ≡ settled kind activation target }
{
    match kind {
        Overall::Existence => activation,
        Overall::Absence => activation,
        Overall::Choice => activation | target,
        Overall::ExclusiveChoice => activation & target,
    }
}

fn fulfilled_if(holds: bool, target: u16) -> Standing
    ensures { result ≡ fulfilled_if holds target }
{
    if holds {
        Standing::Fulfilled(target)
    } else {
        Standing::Violated(target)
    }
}

// The earlier of two positions; 0 is none, as document 01 has it.
fn earlier(i: usize, j: usize) -> usize
    ensures { result ≡ earlier i j }
{
    match (i, j) {
        (0, j) => j,
        (i, 0) => i,
        _ => i.min(j),
    }
}

// The time of the first event; before there is one, the horizon.
#[tactic(auto, unfolding(declare::specs::Events::first_time))]
fn first_time(horizon: u32, events: &[Event]) -> u32
    ensures { result ≡ first_time horizon events.now }
{
    events.first().map_or(horizon, |e| e.time)
}

// Whether the event meets the activation condition, inside the window from the time `first`.
fn meets_inside(rule: &Rule, first: u32, e: Event) -> bool
    ensures { result ≡ (met rule.now.condition e e && within rule.now.window (between first e.time)) }
{
    within(rule.window, between(first, e.time)) && met(rule.condition, e, e)
}

// The first event at which the activity occurs, or 0. Most events have another activity: these are
// not copied.
fn first_occurrence(rule: &Rule, activity: u8, events: &[Event]) -> usize
    requires { length events.now ≤ most_events }
    ensures { (result ≡ first_up_to (occurs_at rule.now events.now activity) (length events.now)) × (result ≤ length events.now) }
{
    let first = first_time(0, events);
    let place = events.iter().position(|e| e.activity == activity && meets_inside(rule, first, *e));
    match place {
        Some(p) => p + 1,
        None => 0,
    }
}

// The same for the target activity, if it is judged; else 0.
#[tactic(auto, unfolding(crate::specs::Occurrences::target_occurrence))]
fn target_occurrence(rule: &Rule, events: &[Event]) -> usize
    requires { length events.now ≤ most_events }
    ensures { (result ≡ target_occurrence rule.now events.now (length events.now)) × (result ≤ length events.now) }
{
    if counts_target(overall_of(rule.code)) {
        first_occurrence(rule, rule.target, events)
    } else {
        0
    }
}

// Whether an event that is no earlier than the horizon may occur.
fn can_occur(rule: &Rule, events: &[Event], horizon: u32) -> bool
    ensures { result ≡ can_occur rule.now events.now horizon }
{
    let first = first_time(horizon, events);
    can_suit(cycle_bound(*rule, first), horizon)
}

// The standing at position 0: by the formula, unless an event that can come may turn it.
fn judge_cycle(running: bool, rule: &Rule, events: &[Event], horizon: u32) -> Standing
    requires { (length events.now ≤ most_events) × (is_overall rule.now.code ≡ true) }
    ensures { result ≡ judged running rule.now events.now horizon 0 }
{
    let kind = overall_of(rule.code);
    let a = first_occurrence(rule, rule.activation, events);
    let b = target_occurrence(rule, events);
    let decided = fulfilled_if(formula(kind, 0 < a, 0 < b), target_of(earlier(a, b)));
    if !running | settled(kind, 0 < a, 0 < b) {
        return decided;
    }
    if can_occur(rule, events, horizon) {
        return Standing::Open;
    }
    decided
}

// The standings at position 0 after a step: under each rule about the cycle, a decided one is
// carried over, and any other follows from the first n events.
pub fn judge_overall(
    running: bool,
    table: Table,
    events: [Event; EVENTS],
    n: usize,
    horizon: u32,
    mut cells: [Cell; RULES],
) -> [Cell; RULES]
    ensures { result ≡ judged_overall running table events n horizon cells }
{
    let cycle = &events[..n.min(EVENTS)];
    // One index for two arrays, of which one is changed: a zip would be no plainer.
    for k in 0..table.count.min(RULES) {
        let rule = &table.rules[k];
        if is_overall(rule.code) & !cells[k].standing.is_decided() {
            let next = judge_cycle(running, rule, cycle, horizon);
            cells[k] = Cell { standing: next };
        }
    }
    cells
}
