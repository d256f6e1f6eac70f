// Comparisons: each function is handed the part of a condition that begins at what it reads, which
// ends at a comma or with the part.
ghost use Rattle.std.specs.Prelude.{◌≡◌};
ghost use Rattle.declare.specs.Answers.{answer_of};
ghost use Rattle.number.specs.Reader.{integer_in};
ghost use Rattle.rule_text.specs.Comparisons.{digit_of, operator_of, k_answer, k_field, activation_field, reference_field, comparison_field};
ghost use Rattle.rule_text.specs.Reads.{up_to_comma};

use declare::{Comparison, Operator, Reference, Refusal};
use line::{Field, byte_at, part_from, scan_field};
use number::{Fault, Reader};

// A reading by its digit, `1` to `4`.
fn digit_of(byte: u8) -> Result<u8, Refusal>
    ensures { answer_of result ≡ digit_of byte }
{
    match byte {
        b'1'..=b'4' => Ok(byte - b'0'),
        _ => Err(Refusal::ComparisonForm),
    }
}

fn operator_of(byte: u8) -> Result<Operator, Refusal>
    ensures { answer_of result ≡ operator_of byte }
{
    match byte {
        b'=' => Ok(Operator::Equal),
        b'!' => Ok(Operator::NotEqual),
        b'<' => Ok(Operator::Less),
        b'l' => Ok(Operator::AtMost),
        b'>' => Ok(Operator::Greater),
        b'g' => Ok(Operator::AtLeast),
        _ => Err(Refusal::ComparisonForm),
    }
}

// A k not of the number form is a comparison not of its form: another refusal than `From`'s.
fn k_answer(reader: Reader) -> Result<i32, Refusal>
    ensures { answer_of result ≡ k_answer (integer_in reader) }
{
    match reader.integer() {
        Ok(k) => Ok(k),
        Err(Fault::Form) => Err(Refusal::ComparisonForm),
        Err(Fault::Range) => Err(Refusal::OutOfRange),
    }
}

fn k_field(part: &[u8]) -> Result<Field<i32>, Refusal>
    ensures { answer_of result ≡ up_to_comma k_field part.now }
{
    let scan = scan_field(part, b',');
    Ok(Field {
        answer: k_answer(scan.answer)?,
        length: scan.length,
    })
}

// What follows `@`.
fn activation(part: &[u8]) -> Result<Field<Reference>, Refusal>
    ensures { answer_of result ≡ up_to_comma activation_field part.now }
{
    let g = digit_of(byte_at(part, 0))?;
    if byte_at(part, 1) != b':' {
        return Err(Refusal::ComparisonForm);
    }
    let k = k_field(part_from(part, 2))?;
    Ok(Field {
        answer: Reference::Activation(g, k.answer),
        length: k.length + 2,
    })
}

fn reference(part: &[u8], correlation: bool) -> Result<Field<Reference>, Refusal>
    ensures { answer_of result ≡ up_to_comma (reference_field correlation) part.now }
{
    if byte_at(part, 0) != b'@' {
        let k = k_field(part)?;
        return Ok(Field {
            answer: Reference::Constant(k.answer),
            length: k.length,
        });
    }
    if !correlation {
        return Err(Refusal::ComparisonForm);
    }
    let activation = activation(part_from(part, 1))?;
    Ok(Field {
        answer: activation.answer,
        length: activation.length + 1,
    })
}

pub fn comparison(part: &[u8], correlation: bool) -> Result<Field<Comparison>, Refusal>
    ensures { answer_of result ≡ up_to_comma (comparison_field correlation) part.now }
{
    let reading = digit_of(byte_at(part, 0))?;
    let operator = operator_of(byte_at(part, 1))?;
    let reference = reference(part_from(part, 2), correlation)?;
    Ok(Field {
        answer: Comparison {
            reading,
            operator,
            reference: reference.answer,
        },
        length: reference.length + 2,
    })
}
