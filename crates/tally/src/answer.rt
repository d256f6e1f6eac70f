// What was counted of a rule. It has a file of its own, since a struct with a ghost field imports
// all that its file cites, and what lib.rt cites names this struct.
ghost use Rattle.std.specs.Prelude.{◌≡◌, true, [], ◌∷◌};
ghost use Rattle.declare.specs.Answers.{answer_of};
ghost use Rattle.tally.specs.Causes.{refuses_with};

use declare::Refusal;
use standings::totals::Totals;

// What a tally takes from a run: the totals of a rule of a closed run, or why there are none; 14 is
// no such cause. The field is private to this crate, so that only counted_of makes one.
#[derive(Clone, Copy)]
pub struct Counted {
    pub(super) answer: Result<Totals, Refusal>,
    pub ghost causes: { refuses_with (11 ∷ 10 ∷ 9 ∷ []) (answer_of answer) ≡ true },
}
