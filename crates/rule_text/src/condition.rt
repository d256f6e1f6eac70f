// Conditions: up to four comparisons, parted by commas.
ghost use Rattle.std.specs.Prelude.{◌≡◌, [], ◌∷◌, ◌++◌, ◌<◌};
ghost use Rattle.declare.specs.Answers.{answer_of};
ghost use Rattle.declare.specs.Limits.{most_comparisons};
ghost use Rattle.declare.specs.Conditions.{comparisons_of};
ghost use Rattle.line.specs.Fields.{index_of, before};
ghost use Rattle.rule_text.specs.Conditions.{condition_of, comparisons_field, condition_field};

use crate::comparison::comparison;
use declare::slots::no_condition;
use declare::{COMPARISONS, Comparison, Condition, Refusal};
use line::{Field, find, is_dash, part_before};

// One comparison more. Four fields with a count are the form of document 01's record.
fn with(condition: Condition, next: Comparison) -> Condition
    requires room { condition.count < most_comparisons }
    requires same { condition ≡ condition_of (comparisons_of condition) }
    ensures { result ≡ condition_of (comparisons_of condition ++ (next ∷ [])) }
{
    match condition.count {
        0 => Condition {
            count: 1,
            first: next,
            ..condition
        },
        1 => Condition {
            count: 2,
            second: next,
            ..condition
        },
        2 => Condition {
            count: 3,
            third: next,
            ..condition
        },
        _ => Condition {
            count: 4,
            fourth: next,
            ..condition
        },
    }
}

// A condition that is not `-`. A fifth comparison is read, and then refused.
fn comparisons(field: &[u8], correlation: bool) -> Result<Condition, Refusal>
    ensures { answer_of result ≡ comparisons_field correlation field.now }
{
    let mut condition = no_condition();
    // What is left to read: none where the last comparison ended with the field. By no iterator:
    // `split` would go over the bytes to find what the comparison finds as it reads.
    let mut rest = Some(field);
    while let Some(part) = rest {
        let next = comparison(part, correlation)?;
        if COMPARISONS <= condition.count {
            return Err(Refusal::TooManyComparisons);
        }
        condition = with(condition, next.answer);
        rest = part.get(next.length + 1..);
    }
    Ok(condition)
}

fn condition(field: &[u8], correlation: bool) -> Result<Condition, Refusal>
    ensures { answer_of result ≡ condition_field correlation field.now }
{
    if is_dash(field) {
        return Ok(no_condition());
    }
    comparisons(field, correlation)
}

// The first field as a condition.
pub fn condition_field(
    part: &[u8],
    separator: u8,
    correlation: bool,
) -> Field<Result<Condition, Refusal>>
    ensures answer_value { answer_of result.answer ≡ condition_field correlation (before separator part.now) }
    ensures length_value { result.length ≡ index_of separator part.now }
{
    let length = find(part, separator);
    Field {
        answer: condition(part_before(part, length), correlation),
        length,
    }
}
