// The limits of events. A test that the number's type decides costs nothing.
ghost use Rattle.std.specs.Prelude.{◌≡◌, Some};
ghost use Rattle.declare.specs.Events.{in_range, is_activity, well_formed};

use declare::{Event, LAST_ACTIVITY, LATEST, Reading};

// Whether v may be a reading or a constant: each number of its type may.
pub fn in_range(v: i32) -> bool
    ensures { result ≡ in_range (Some v) }
{
    (i32::MIN..=i32::MAX).contains(&v)
}

#[tactic(auto, unfolding(declare::specs::Events::in_range))]
fn reading_in_range(reading: Reading) -> bool
    ensures { result ≡ in_range reading }
{
    reading.is_none_or(in_range)
}

#[tactic(auto, unfolding(declare::specs::Events::is_activity))]
pub fn is_activity(a: u8) -> bool
    ensures { result ≡ is_activity a }
{
    (1..=LAST_ACTIVITY).contains(&a)
}

// The readings have names, so that a loop over a list of them would be no plainer.
pub fn well_formed(e: Event) -> bool
    ensures { result ≡ well_formed e }
{
    (e.time <= LATEST)
        & is_activity(e.activity)
        & reading_in_range(e.reading1)
        & reading_in_range(e.reading2)
        & reading_in_range(e.reading3)
        & reading_in_range(e.reading4)
}
