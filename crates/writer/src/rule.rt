// Rules as the lines of a rules text.
ghost use Rattle.std.specs.Prelude.{[], ◌∷◌, ◌++◌};
ghost use Rattle.line.specs.Texts.{written_line};
ghost use Rattle.rule_text.specs.Written.{end_text, rule_fields, rules_text};
ghost use Rattle.buffer.specs.Puts.{Put};

use crate::conditions::put_condition_field;
use crate::field::put_byte_field;
use buffer::put::Output;
use declare::{End, Rule};
use line::{LINE_FEED, TAB};

fn put_end(out: &mut Output<'_>, until: End)
    ensures { Put (end_text until) out.old out.new }
{
    match until {
        None => out.put_byte(b'-'),
        Some(b) => out.put_number(b),
    }
}

// The end of a window, and the byte that ends its field.
fn put_end_field(out: &mut Output<'_>, until: End, end: u8)
    ensures { Put (end_text until ++ (end ∷ [])) out.old out.new }
{
    put_end(out, until);
    out.put_byte(end);
}

fn put_rule(out: &mut Output<'_>, rule: Rule)
    ensures { Put (written_line rule_fields rule) out.old out.new }
{
    put_byte_field(out, rule.code, TAB);
    put_byte_field(out, rule.activation, TAB);
    put_byte_field(out, rule.target, TAB);
    out.put_number_field(rule.window.from, TAB);
    put_end_field(out, rule.window.until, TAB);
    put_condition_field(out, rule.condition, TAB);
    put_condition_field(out, rule.correlation, LINE_FEED);
}

pub fn put_rules(out: &mut Output<'_>, rules: &[Rule])
    ensures { Put (rules_text rules.now) out.old out.new }
{
    for rule in rules {
        put_rule(out, *rule);
    }
}
