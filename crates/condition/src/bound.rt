// A rule bound to one activation: its references made numbers once, for every event that is then
// tried.
ghost use Rattle.std.specs.Prelude.{◌≡◌};
ghost use Rattle.declare.specs.Lists.{all};
ghost use Rattle.declare.specs.Comparisons.{passes};
ghost use Rattle.condition.specs.Bound.{test_list, tests_for, bound_of, cycle_bound};

use crate::comparison::{passes, test_of};
use crate::four::Four;
use declare::slots::empty_slot;
use declare::{Condition, Event, Rule, Test, Window};

// The tests that a condition asks, for one activation.
pub type Tests = Four<Test>;

// What a rule asks of a target, for an activation at `time`.
#[derive(Clone, Copy)]
pub struct Bound {
    pub target: u8,
    pub time: u32,
    pub window: Window,
    pub tests: Tests,
}

// A condition for the activation a; the tests past the count are made too, and never tried. It is
// shared, so that it would not be inlined otherwise: each activation costs a call of it.
#[tactic(auto, unfolding(crate::specs::Bound::tests_for))]
#[inline(always)]
pub fn tests_for(a: Event, c: Condition) -> Tests
    ensures { result ≡ tests_for a c }
{
    Four {
        count: c.count,
        items: [
            test_of(a, c.first),
            test_of(a, c.second),
            test_of(a, c.third),
            test_of(a, c.fourth),
        ],
    }
}

// Whether e passes every test: up to the first that does not hold.
pub fn all_pass(tests: Tests, e: Event) -> bool
    ensures { result ≡ all (passes e) (test_list tests) }
{
    tests.used().iter().all(|t| passes(e, *t))
}

// The rule bound to the activation a.
#[tactic(auto, unfolding(crate::specs::Bound::bound_of))]
pub fn bound_of(rule: Rule, a: Event) -> Bound
    ensures { result ≡ bound_of rule a }
{
    Bound {
        target: rule.target,
        time: a.time,
        window: rule.window,
        tests: tests_for(a, rule.correlation),
    }
}

// A rule about the cycle, for a first event at the time `first`.
#[tactic(auto, unfolding(crate::specs::Bound::cycle_bound))]
pub fn cycle_bound(rule: Rule, first: u32) -> Bound
    ensures { result ≡ cycle_bound rule first }
{
    Bound {
        target: rule.target,
        time: first,
        window: rule.window,
        tests: tests_for(empty_slot(), rule.condition),
    }
}
