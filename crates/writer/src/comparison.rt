// Comparisons.
ghost use Rattle.std.specs.Prelude.{◌≡◌};
ghost use Rattle.declare.specs.declared.Reference.TheVariants.{Activation};
ghost use Rattle.rule_text.specs.Comparisons.{operator_byte};
ghost use Rattle.rule_text.specs.Written.{reference_text, comparison_text};
ghost use Rattle.buffer.specs.Puts.{Put};

use buffer::put::Output;
use declare::{Comparison, Operator, Reference};

fn operator_byte(operator: Operator) -> u8
    ensures { result ≡ operator_byte operator }
{
    match operator {
        Operator::Equal => b'=',
        Operator::NotEqual => b'!',
        Operator::Less => b'<',
        Operator::AtMost => b'l',
        Operator::Greater => b'>',
        Operator::AtLeast => b'g',
    }
}

// Reading g of the activation plus k.
fn put_activation(out: &mut Output<'_>, g: u8, k: i32)
    ensures { Put (reference_text (Activation g k)) out.old out.new }
{
    out.put_byte(b'@');
    out.put_number(u32::from(g));
    out.put_byte(b':');
    out.put_integer(k);
}

fn put_reference(out: &mut Output<'_>, reference: Reference)
    ensures { Put (reference_text reference) out.old out.new }
{
    match reference {
        Reference::Constant(k) => out.put_integer(k),
        Reference::Activation(g, k) => put_activation(out, g, k),
    }
}

pub fn put_comparison(out: &mut Output<'_>, c: Comparison)
    ensures { Put (comparison_text c) out.old out.new }
{
    out.put_number(u32::from(c.reading));
    out.put_byte(operator_byte(c.operator));
    put_reference(out, c.reference);
}
