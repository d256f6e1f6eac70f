// Conditions: comparisons with commas between them, or `-`.
ghost use Rattle.std.specs.Prelude.{[], ◌∷◌, ◌++◌};
ghost use Rattle.rule_text.specs.Conditions.{comma};
ghost use Rattle.rule_text.specs.Written.{comparison_text, condition_text};
ghost use Rattle.buffer.specs.Puts.{Put};

use crate::comparison::put_comparison;
use buffer::put::Output;
use declare::{Comparison, Condition};

// A comma and a comparison.
fn put_next(out: &mut Output<'_>, c: Comparison)
    ensures { Put (comma ∷ comparison_text c) out.old out.new }
{
    out.put_byte(b',');
    put_comparison(out, c);
}

fn put_condition(out: &mut Output<'_>, c: Condition)
    ensures { Put (condition_text c) out.old out.new }
{
    if c.count == 0 {
        out.put_byte(b'-');
        return;
    }
    put_comparison(out, c.first);
    let others = [c.second, c.third, c.fourth];
    let count = usize::from(c.count - 1).min(3);
    for next in &others[..count] {
        put_next(out, *next);
    }
}

// A condition, and the byte that ends its field.
pub fn put_condition_field(out: &mut Output<'_>, c: Condition, end: u8)
    ensures { Put (condition_text c ++ (end ∷ [])) out.old out.new }
{
    put_condition(out, c);
    out.put_byte(end);
}
