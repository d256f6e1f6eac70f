// The call notice: the clock moves, and no event comes.
ghost use Rattle.std.specs.Prelude.{◌≡◌};
ghost use Rattle.declare.specs.Answers.{answer_of, after_call};
ghost use Rattle.run.specs.Answers.{step_answer};
ghost use Rattle.run.specs.Calls.{kept_time, notice_of};

use crate::record::is_valid;
use crate::{Run, Step, horizon, running};
use declare::Refusal;

// The time as a running cycle keeps it, if it is not below `horizon`.
fn notices(running: Result<(), Refusal>, horizon: u32, time: u64) -> Result<u32, Refusal>
    ensures { answer_of result ≡ kept_time (answer_of running) horizon time }
{
    running?;
    let Ok(clock) = u32::try_from(time) else {
        return Err(Refusal::OutOfRange);
    };
    if clock < horizon {
        return Err(Refusal::TimeFalls);
    }
    Ok(clock)
}

impl Run {
    // The run with this time kept, its standings judged anew. Refused with 11, 9, 3 or 7, the run
    // then as it was.
    pub fn notice(self, time: u64) -> Step
        ensures { (step_answer result ≡ notice_of self time) × (result.run ≡ after_call self (notice_of self time)) }
    {
        let running = running(is_valid(&self), self.closed);
        let events = self.events;
        let horizon = horizon(self.count, events, self.clock);
        match notices(running, horizon, time) {
            Ok(clock) => self.accepted(self.count, events, clock, clock),
            Err(cause) => self.refused(cause),
        }
    }
}
