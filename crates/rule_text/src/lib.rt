// The rules text: a table of rules, or the first refusal and its line.
#![tactic(auto)]

mod window; // window.rt: the end of a window
mod comparison; // comparison.rt: comparisons, and what they compare with
mod condition; // condition.rt: conditions
mod rule; // rule.rt: rule lines

ghost use Rattle.std.specs.Prelude.{◌≡◌, List, length};
ghost use Rattle.declare.specs.Answers.{answer_of};
ghost use Rattle.rule_text.specs.Types.{Rule as ARule};
ghost use Rattle.rule_text.specs.Reads.{below, ReadsRules};

use crate::rule::rule_line;
use declare::slots::no_rule;
use declare::{RULES, Refusal, Rule, Table};
use line::{LineRefusal, at_line, part_from};

// The rule of a line below `count` rules.
fn in_table(answer: Result<Rule, Refusal>, count: usize) -> Result<Rule, Refusal>
    ensures { (above : List ARule) → count ≡ length above
        → answer_of result ≡ below above (answer_of answer) }
{
    let rule = answer?;
    if RULES <= count {
        return Err(Refusal::TooMany);
    }
    Ok(rule)
}

// The rules of a rules text. Each line's reader is handed the part of the text that begins at the
// line. Beside `read_cycle`: one reader for both would take their unlike checks as a closure with a
// state, which is no plainer.
pub fn read_rules(text: &[u8]) -> Result<Table, LineRefusal>
    ensures { ReadsRules text.now result }
{
    let mut rules = [no_rule(); RULES];
    let mut count: usize = 0;
    let mut rest = text;
    while !rest.is_empty() {
        let line = rule_line(rest);
        let rule = at_line(in_table(line.answer, count), count + 1)?;
        rules[count] = rule;
        count += 1;
        rest = part_from(rest, line.next);
    }
    Ok(Table { count, rules })
}
