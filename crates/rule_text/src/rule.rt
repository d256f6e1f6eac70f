// Rule lines: each field is read from the part of the line that begins at it.
ghost use Rattle.std.specs.Prelude.{◌≡◌, ◌+◌};
ghost use Rattle.declare.specs.Answers.{answer_of};
ghost use Rattle.line.specs.Fields.{LF, index_of, fields_from};
ghost use Rattle.line.specs.Texts.{line_of};
ghost use Rattle.rule_text.specs.Rules.{checked_rule, rule_of};

use crate::condition::condition_field;
use crate::window::{end_field, is_above};
use declare::{LAST_ACTIVITY, LAST_TEMPLATE, Refusal, Rule, Window};
use limits::rule::fits_template;
use line::{LINE_FEED, Line, TAB, byte_field, check_line, number_field, rest_of};

// The tabs between the seven fields of a line.
const TABS: usize = 6;

// The checks of a rule whose fields are all read. Inlined, so that the rule is not copied for them.
#[inline(always)]
fn checked_rule(rule: Rule) -> Result<Rule, Refusal>
    ensures { answer_of result ≡ checked_rule rule }
{
    if !is_above(rule.window.until, rule.window.from) {
        return Err(Refusal::EmptyWindow);
    }
    if !fits_template(rule) {
        return Err(Refusal::TemplateMismatch);
    }
    Ok(rule)
}

// A line of seven fields.
fn read_rule(part: &[u8]) -> Result<Rule, Refusal>
    ensures { answer_of result ≡ rule_of (fields_from 6 part.now) }
{
    let field = byte_field(part, LAST_TEMPLATE);
    let code = field.answer?;
    let part = rest_of(part, field.length);
    let field = byte_field(part, LAST_ACTIVITY);
    let activation = field.answer?;
    let part = rest_of(part, field.length);
    let field = byte_field(part, LAST_ACTIVITY);
    let target = field.answer?;
    let part = rest_of(part, field.length);
    let field = number_field(part, TAB, 0, u32::MAX);
    let from = field.answer?;
    let part = rest_of(part, field.length);
    let field = end_field(part);
    let until = field.answer?;
    let part = rest_of(part, field.length);
    let field = condition_field(part, TAB, false);
    let condition = field.answer?;
    let part = rest_of(part, field.length);
    let field = condition_field(part, LINE_FEED, true);
    let correlation = field.answer?;
    checked_rule(Rule {
        code,
        activation,
        target,
        window: Window { from, until },
        condition,
        correlation,
    })
}

// The line with which `rest` begins, and where the next one begins.
pub fn rule_line(rest: &[u8]) -> Line<Rule>
    ensures answer_value { answer_of result.answer ≡ line_of rule_of rest.now }
    ensures next_value { result.next ≡ index_of LF rest.now + 1 }
{
    let line = check_line(rest, TABS);
    Line {
        answer: line.answer.and_then(|()| read_rule(rest)),
        next: line.next,
    }
}
