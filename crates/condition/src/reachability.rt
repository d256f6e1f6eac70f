// Whether an event that suits may still come.
ghost use Rattle.std.specs.Prelude.{◌≡◌};
ghost use Rattle.std.specs.List.{list_all, list_any};
ghost use Rattle.declare.specs.Events.{in_range};
ghost use Rattle.declare.specs.Reachability.{asks, meets, after, edge_of, edge, some_meets, satisfiable, has_room};
ghost use Rattle.condition.specs.Bound.{can_suit_bound};

use crate::bound::Bound;
use crate::comparison::holds;
use crate::window::within;
use declare::{GREATEST, LEAST, Operand, Operator, Test, Window};

// Whether v may be a reading: the exact sums may pass the range at either end.
fn in_range(v: Operand) -> bool
    ensures { result ≡ in_range v }
{
    v.is_none_or(|x| (LEAST..=GREATEST).contains(&x))
}

// Whether v passes the test t as reading k; t asks nothing of another reading than its own.
#[tactic(auto, unfolding(declare::specs::Reachability::asks))]
fn asks(k: u8, v: Operand, t: Test) -> bool
    ensures { result ≡ asks k v t }
{
    t.reading != k || holds(t.operator, v, t.against)
}

// Whether v passes every test of reading k.
fn meets_tests(tests: &[Test], k: u8, v: Operand) -> bool
    ensures { result ≡ list_all (asks k v) tests.now }
{
    tests.iter().all(|t| asks(k, v, *t))
}

// Whether v may be a reading, and passes every test of reading k.
#[tactic(auto, unfolding(declare::specs::Reachability::meets))]
fn meets(tests: &[Test], k: u8, v: Operand) -> bool
    ensures { result ≡ meets tests.now k v }
{
    in_range(v) && meets_tests(tests, k, v)
}

// The number after y; at the end of the range y itself, so that nothing wraps.
#[tactic(auto, unfolding(declare::specs::Reachability::after, declare::specs::Events::greatest))]
fn after(y: i64) -> i64
    ensures { result ≡ after y }
{
    if y < GREATEST { y + 1 } else { y }
}

// The only number, but the least of the range, at which a comparison with y can begin to hold.
#[tactic(auto, unfolding(declare::specs::Reachability::edge_of, declare::specs::Events::least))]
fn edge_of(operator: Operator, y: i64) -> i64
    ensures { result ≡ edge_of operator y }
{
    match operator {
        Operator::Equal | Operator::AtLeast => y,
        Operator::NotEqual | Operator::Greater => after(y),
        Operator::Less | Operator::AtMost => LEAST,
    }
}

// The number at which the test can begin to hold; against a blank there is none.
fn edge(t: Test) -> Operand
    ensures { result ≡ edge t }
{
    t.against.map(|y| edge_of(t.operator, y))
}

// Whether reading k may stand at the edge of a test.
fn some_edge_meets(tests: &[Test], k: u8) -> bool
    ensures { result ≡ list_any (λ t. meets tests.now k (edge t)) tests.now }
{
    tests.iter().any(|t| meets(tests, k, edge(*t)))
}

// Whether reading k may have a value that passes its tests: if any, then a blank, the least number
// or an edge.
fn some_meets(tests: &[Test], k: u8) -> bool
    ensures { result ≡ some_meets tests.now k }
{
    meets(tests, k, None) || meets(tests, k, Some(LEAST)) || some_edge_meets(tests, k)
}

// Whether the readings of some event pass all the tests.
fn satisfiable(tests: &[Test]) -> bool
    ensures { result ≡ satisfiable tests.now }
{
    tests.is_empty() || [1, 2, 3, 4].iter().all(|k| some_meets(tests, *k))
}

// Whether the window of an activation at `time` has room for an event that is no earlier than the
// horizon.
fn has_room(window: Window, time: u32, horizon: u32) -> bool
    ensures { result ≡ has_room window time horizon }
{
    match time.checked_add(window.from) {
        None => false,
        Some(opening) => within(window, opening.max(horizon) - time),
    }
}

// Whether an event that is no earlier than the horizon may suit the activation that the rule is
// bound to.
#[tactic(auto, unfolding(crate::specs::Bound::can_suit_bound))]
pub fn can_suit(bound: Bound, horizon: u32) -> bool
    ensures { result ≡ can_suit_bound bound horizon }
{
    has_room(bound.window, bound.time, horizon) && satisfiable(bound.tests.used())
}
