// The limits of rules: every number against its range, and what a template asks of its rule.
ghost use Rattle.std.specs.Prelude.{◌≡◌, false, true};
ghost use Rattle.std.specs.List.{list_all};
ghost use Rattle.declare.specs.Rules.{is_reading, valid_reference, valid_comparison, valid_condition, valid_end, valid_window, valid_head, fits_template, valid_rule};

use crate::event::{in_range, is_activity};
use declare::codes::{counts_target, is_overall, overall_of};
use declare::{
    COMPARISONS, Comparison, Condition, End, LAST_TEMPLATE, LATEST, Reference, Rule, Window,
};

#[tactic(auto, unfolding(declare::specs::Rules::is_reading))]
fn is_reading(k: u8) -> bool
    ensures { result ≡ is_reading k }
{
    (1..=4).contains(&k)
}

// The activation's readings are named in a correlation only.
#[tactic(auto, unfolding(declare::specs::Rules::valid_reference))]
fn valid_reference(correlation: bool, reference: Reference) -> bool
    ensures { result ≡ valid_reference correlation reference }
{
    match reference {
        Reference::Constant(k) => in_range(k),
        Reference::Activation(g, k) => correlation & is_reading(g) & in_range(k),
    }
}

#[tactic(auto, unfolding(declare::specs::Rules::valid_comparison))]
fn valid_comparison(correlation: bool, c: Comparison) -> bool
    ensures { result ≡ valid_comparison correlation c }
{
    is_reading(c.reading) & valid_reference(correlation, c.reference)
}

fn valid_comparisons(correlation: bool, comparisons: &[Comparison]) -> bool
    ensures { result ≡ list_all (valid_comparison correlation) comparisons.now }
{
    comparisons
        .iter()
        .all(|c| valid_comparison(correlation, *c))
}

// The count, and the comparisons up to it.
fn valid_condition(correlation: bool, c: Condition) -> bool
    ensures { result ≡ valid_condition correlation c }
{
    let all = [c.first, c.second, c.third, c.fourth];
    c.count <= COMPARISONS && valid_comparisons(correlation, &all[..c.count as usize])
}

// Whether b, the end, is above a, the start.
#[tactic(auto, unfolding(declare::specs::Rules::valid_end))]
fn valid_end(a: u32, until: End) -> bool
    ensures { result ≡ valid_end a until }
{
    until.is_none_or(|b| (a < b) & (b <= LATEST))
}

#[tactic(auto, unfolding(declare::specs::Rules::valid_window))]
fn valid_window(w: Window) -> bool
    ensures { result ≡ valid_window w }
{
    (w.from <= LATEST) & valid_end(w.from, w.until)
}

// All of a rule but its conditions.
#[tactic(auto, unfolding(declare::specs::Rules::valid_head, declare::specs::Rules::is_template))]
fn valid_head(rule: Rule) -> bool
    ensures { result ≡ valid_head rule }
{
    (1..=LAST_TEMPLATE).contains(&rule.code)
        & is_activity(rule.activation)
        & is_activity(rule.target)
        & valid_window(rule.window)
}

// Whether a rule about the cycle as such has no correlation, and activities that differ where both
// count. Any other rule fits.
#[tactic(auto, unfolding(declare::specs::Rules::fits_template))]
pub fn fits_template(rule: Rule) -> bool
    ensures { result ≡ fits_template rule }
{
    if !is_overall(rule.code) {
        return true;
    }
    let both_count = counts_target(overall_of(rule.code));
    (rule.correlation.count == 0) & !(both_count & (rule.activation == rule.target))
}

#[tactic(auto, unfolding(declare::specs::Rules::valid_rule))]
pub fn valid_rule(rule: Rule) -> bool
    ensures { result ≡ valid_rule rule }
{
    valid_head(rule)
        && valid_condition(false, rule.condition)
        && valid_condition(true, rule.correlation)
        && fits_template(rule)
}
