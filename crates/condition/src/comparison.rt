// Readings, comparisons, and comparisons for one activation.
ghost use Rattle.std.specs.Prelude.{◌≡◌};
ghost use Rattle.declare.specs.Comparisons.{reading_of, compares, holds, plus, reference_of, test_of, passes};

use declare::{Comparison, Event, Operand, Operator, Reading, Reference, Test};

// Reading 1 to 4 of an event; there is no other. A comparison names it by its number, in a record
// as in a text.
fn reading_of(e: Event, k: u8) -> Reading
    ensures { result ≡ reading_of e k }
{
    match k {
        1 => e.reading1,
        2 => e.reading2,
        3 => e.reading3,
        4 => e.reading4,
        _ => None,
    }
}

// Whether x stands to y as the operator says.
pub fn compares(operator: Operator, x: i64, y: i64) -> bool
    ensures { result ≡ compares operator x y }
{
    match operator {
        Operator::Equal => x == y,
        Operator::NotEqual => x != y,
        Operator::Less => x < y,
        Operator::AtMost => x <= y,
        Operator::Greater => x > y,
        Operator::AtLeast => x >= y,
    }
}

// Whether a comparison of x with y holds: never with a blank, ≠ included.
#[tactic(auto, unfolding(declare::specs::Comparisons::holds))]
pub fn holds(operator: Operator, x: Operand, y: Operand) -> bool
    ensures { result ≡ holds operator x y }
{
    match (x, y) {
        (Some(v), Some(w)) => compares(operator, v, w),
        _ => false,
    }
}

// A reading plus k, which may pass a reading's range; of a blank there is no sum.
#[tactic(auto, unfolding(declare::specs::Comparisons::plus))]
fn plus(x: Reading, k: i32) -> Operand
    ensures { result ≡ plus x k }
{
    x.map(|v| i64::from(v) + i64::from(k))
}

// What a comparison compares with, for the activation a.
#[tactic(auto, unfolding(declare::specs::Comparisons::reference_of))]
fn reference_of(a: Event, reference: Reference) -> Operand
    ensures { result ≡ reference_of a reference }
{
    match reference {
        Reference::Constant(k) => Some(i64::from(k)),
        Reference::Activation(g, k) => plus(reading_of(a, g), k),
    }
}

// A comparison for the activation a.
#[tactic(auto, unfolding(declare::specs::Comparisons::test_of))]
pub fn test_of(a: Event, c: Comparison) -> Test
    ensures { result ≡ test_of a c }
{
    Test {
        reading: c.reading,
        operator: c.operator,
        against: reference_of(a, c.reference),
    }
}

// Whether the comparison holds of the event e.
#[tactic(auto, unfolding(declare::specs::Comparisons::passes))]
pub fn passes(e: Event, t: Test) -> bool
    ensures { result ≡ passes e t }
{
    holds(
        t.operator,
        reading_of(e, t.reading).map(i64::from),
        t.against,
    )
}
