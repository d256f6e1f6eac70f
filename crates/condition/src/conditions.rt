// Conditions: up to four comparisons.
ghost use Rattle.std.specs.Prelude.{◌≡◌};
ghost use Rattle.std.specs.List.{list_all};
ghost use Rattle.declare.specs.Comparisons.{test_of, passes};
ghost use Rattle.declare.specs.Conditions.{met};

use crate::comparison::{passes, test_of};
use crate::four::Four;
use declare::{Comparison, Condition, Event};

// Whether the comparisons hold of e, for the activation a: up to the first that does not.
fn hold(comparisons: &[Comparison], a: Event, e: Event) -> bool
    ensures { result ≡ list_all (λ c. passes e (test_of a c)) comparisons.now }
{
    comparisons.iter().all(|c| passes(e, test_of(a, *c)))
}

// Whether e meets the condition, for the activation a.
pub fn met(c: Condition, a: Event, e: Event) -> bool
    ensures { result ≡ met c a e }
{
    let comparisons = Four {
        count: c.count,
        items: [c.first, c.second, c.third, c.fourth],
    };
    hold(comparisons.used(), a, e)
}
