// The end of a window: its field, and whether it is above the window's start.
ghost use Rattle.std.specs.Prelude.{◌≡◌};
ghost use Rattle.line.specs.Fields.{tab, index_of, before};
ghost use Rattle.line.specs.Values.{fault_answer};
ghost use Rattle.rule_text.specs.Rules.{end_field, is_above};
ghost use Rattle.rule_text.specs.Reads.{end_by};

use declare::End;
use line::{Field, TAB, scan_field};
use number::{Fault, Reader};

// The bytes that the reader was handed, as the end of a window.
fn end_answer(reader: Reader) -> Result<End, Fault>
    ensures { fault_answer result ≡ end_by reader }
{
    if reader.is_dash() {
        return Ok(None);
    }
    Ok(Some(reader.natural(1, u32::MAX)?))
}

// The first field as the end of a window.
#[tactic(auto, unfolding(line::specs::Scans::field_scan))]
pub fn end_field(part: &[u8]) -> Field<Result<End, Fault>>
    ensures answer_value { fault_answer result.answer ≡ end_field (before tab part.now) }
    ensures length_value { result.length ≡ index_of tab part.now }
{
    let scan = scan_field(part, TAB);
    Field {
        answer: end_answer(scan.answer),
        length: scan.length,
    }
}

// b is above a, or there is no end.
#[tactic(auto, unfolding(crate::specs::Rules::is_above))]
pub fn is_above(until: End, from: u32) -> bool
    ensures { result ≡ is_above until from }
{
    until.is_none_or(|b| from < b)
}
