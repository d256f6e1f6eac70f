// The calls standing and totals: what a record says, without changing it.
ghost use Rattle.std.specs.Prelude.{◌≡◌};
ghost use Rattle.declare.specs.Answers.{answer_of};
ghost use Rattle.run.specs.Queries.{one_of, is_position, standing_of, totals_of};

use crate::Run;
use crate::record::is_valid;
use declare::codes::is_overall_rule;
use declare::{Refusal, Standing, Table};
use standings::totals::Totals;
use standings::{standing_in, zero_in};

// Whether k is one of 1 to n.
fn one_of(n: usize, k: usize) -> bool
    ensures { result ≡ one_of n k }
{
    (1..=n).contains(&k)
}

// Whether i is a position of rule k, of n events.
#[tactic(auto, unfolding(crate::specs::Queries::is_position))]
fn is_position(table: Table, n: usize, k: usize, i: usize) -> bool
    ensures { result ≡ is_position table n k i }
{
    if i == 0 {
        is_overall_rule(table, k)
    } else {
        i <= n
    }
}

impl Run {
    // The standing of a rule's position. Refused with 11 or 10.
    pub fn standing(self, rule: usize, position: usize) -> Result<Standing, Refusal>
        ensures { answer_of result ≡ standing_of self rule position }
    {
        if !is_valid(&self) {
            return Err(Refusal::InvalidRecord);
        }
        let table = self.table;
        if !(one_of(table.count, rule) & is_position(table, self.count, rule, position)) {
            return Err(Refusal::NotFound);
        }
        if position == 0 {
            return Ok(zero_in(table, self.overall, rule));
        }
        Ok(standing_in(self.cells, rule, position))
    }

    // The stored totals of a rule. Refused with 11 or 10.
    pub fn totals(self, rule: usize) -> Result<Totals, Refusal>
        ensures { answer_of result ≡ totals_of self rule }
    {
        if !is_valid(&self) {
            return Err(Refusal::InvalidRecord);
        }
        if !one_of(self.table.count, rule) {
            return Err(Refusal::NotFound);
        }
        Ok(self.totals[rule - 1])
    }
}
