// The templates about the cycle as such, codes 13 to 16.
ghost use Rattle.std.specs.Prelude.{◌≡◌};
ghost use Rattle.declare.specs.Rules.{is_overall_rule};
ghost use Rattle.declare.specs.Overall.{is_overall, overall_of, counts_target};

use crate::{FIRST_OVERALL, LAST_TEMPLATE, Overall, RULES, Table};

#[tactic(auto, unfolding(crate::specs::Overall::is_overall))]
pub fn is_overall(code: u8) -> bool
    ensures { result ≡ is_overall code }
{
    (FIRST_OVERALL..=LAST_TEMPLATE).contains(&code)
}

// Whether the table has a rule k, about the cycle as such.
pub fn is_overall_rule(table: Table, k: usize) -> bool
    ensures { result ≡ is_overall_rule table k }
{
    let p = k.saturating_sub(1);
    if (table.count < k) | (RULES <= p) {
        return false;
    }
    let rule = table.rules[p];
    is_overall(rule.code)
}

// The template of such a code. A code is a number in a record, since a record may hold any (11);
// `overall_of` says something of each, so this is no TryFrom.
#[tactic(auto, unfolding(crate::specs::Overall::overall_of))]
pub fn overall_of(code: u8) -> Overall
    ensures { result ≡ overall_of code }
{
    match code {
        13 => Overall::Existence,
        14 => Overall::Absence,
        15 => Overall::Choice,
        _ => Overall::ExclusiveChoice,
    }
}

// Whether the target activity is judged too.
pub fn counts_target(overall: Overall) -> bool
    ensures { result ≡ counts_target overall }
{
    matches!(overall, Overall::Choice | Overall::ExclusiveChoice)
}
