// The day tally of one rule.
#![tactic(auto)]

ghost use Rattle.std.specs.Prelude.{◌≡◌, true, cond, [], ◌∷◌};
ghost use Rattle.declare.specs.Answers.{answer_of};
ghost use Rattle.tally.specs.Causes.{refuses_with};
ghost use Rattle.tally.specs.Tally.{has_room_for, added, counts_of, with_counted, Counts, Absorbs};

use declare::Refusal;
use run::Run;
use standings::totals::Totals;

mod answer; // answer.rt: what was counted of a rule

pub use answer::Counted;

// The most that a field of a tally can count.
pub const MOST_COUNTED: u64 = 4294967295;

// How many cycles were absorbed, and the sums of their totals.
#[derive(Clone, Copy)]
pub struct Tally {
    pub cycles: u32,
    pub activations: u32,
    pub fulfilled: u32,
    pub violated: u32,
}

// What absorbing did, and beside it the tally after it, after a refusal the same one: document 01,
// "a refusal alters neither run nor tally".
#[derive(Clone, Copy)]
pub struct Sum {
    pub tally: Tally,
    pub outcome: Result<(), Refusal>,
}

// The tally with the totals of one cycle more, if no field would pass its range.
#[tactic(auto, unfolding(crate::specs::Tally::has_room_for))]
fn added(tally: Tally, totals: Totals) -> Option<Tally>
    ensures { result ≡ cond (has_room_for tally totals) (Some (added tally totals)) None }
{
    Some(Tally {
        cycles: tally.cycles.checked_add(1)?,
        activations: tally
            .activations
            .checked_add(u32::from(totals.activations))?,
        fulfilled: tally.fulfilled.checked_add(u32::from(totals.fulfilled))?,
        violated: tally.violated.checked_add(u32::from(totals.violated))?,
    })
}

// The totals of a rule of a closed run. Refused with 11, 10 or 9.
fn totals_of(run: Run, rule: usize) -> Result<Totals, Refusal>
    ensures { answer_of result ≡ counts_of run rule }
{
    let totals = run.totals(rule)?;
    if !run.closed {
        return Err(Refusal::WrongPhase);
    }
    Ok(totals)
}

// The same, for a tally to absorb.
pub fn counted_of(run: Run, rule: usize) -> Counted
    ensures { Counts run rule result }
{
    Counted {
        answer: totals_of(run, rule),
    }
}

// The tally with what was counted. Refused as that is, or with 14.
fn next(tally: Tally, counted: Counted) -> Result<Tally, Refusal>
    ensures { answer_of result ≡ with_counted tally counted }
{
    let totals = counted.answer?;
    added(tally, totals).ok_or(Refusal::TallyOverflow)
}

// The tally with the totals of one cycle more, by value. Refused as they are, or with 14, the tally
// then as it was.
pub fn absorbed(tally: Tally, counted: Counted) -> Sum
    ensures absorbs { Absorbs tally counted result.tally result.outcome }
    ensures causes { refuses_with (11 ∷ 10 ∷ 9 ∷ 14 ∷ []) (answer_of result.outcome) ≡ true }
{
    match next(tally, counted) {
        Ok(next) => Sum {
            tally: next,
            outcome: Ok(()),
        },
        Err(cause) => Sum {
            tally,
            outcome: Err(cause),
        },
    }
}

// The same in place: absorb(&mut tally, counted_of(run, rule)) absorbs a closed run.
pub fn absorb(tally: &mut Tally, counted: Counted) -> Result<(), Refusal>
    ensures absorbs { Absorbs tally.old counted tally.new result }
    ensures causes { refuses_with (11 ∷ 10 ∷ 9 ∷ 14 ∷ []) (answer_of result) ≡ true }
{
    *tally = next(*tally, counted)?;
    Ok(())
}
