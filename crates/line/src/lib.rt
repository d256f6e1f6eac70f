// Lines and fields: each function is handed the part of the text that begins at the line or the
// field, and goes over its bytes once.
#![tactic(auto)]

ghost use Rattle.std.specs.Prelude.{◌≡◌, ◌+◌, get_or, take, drop};
ghost use Rattle.number.specs.Number.{dash};
ghost use Rattle.declare.specs.Answers.{answer_of};
ghost use Rattle.line.specs.Fields.{LF, tab, index_of, before};
ghost use Rattle.line.specs.Scans.{line_scan, field_scan, reading_by};
ghost use Rattle.line.specs.Texts.{has_fields, at_line, line_of};
ghost use Rattle.line.specs.Values.{fault_answer, natural_answer, number_field, reading_field};

use declare::{Reading, Refusal};
use number::{Fault, Reader};

// The bytes that end a line, and a field before its last.
pub const LINE_FEED: u8 = b'\n';

pub const TAB: u8 = b'\t';

// What the first line of a text holds, and where the next one begins.
#[derive(Clone, Copy)]
pub struct Line<T> {
    pub answer: Result<T, Refusal>,
    pub next: usize,
}

// What the first field of a part holds, and the field's length.
#[derive(Clone, Copy)]
pub struct Field<T> {
    pub answer: T,
    pub length: usize,
}

// Why a text is refused, and at which line.
#[derive(Clone, Copy)]
pub struct LineRefusal {
    pub refusal: Refusal,
    pub line: usize,
}

// An answer about a line, with its number beside a refusal.
#[tactic(auto, unfolding(crate::specs::Texts::at_line))]
pub fn at_line<T: Copy>(answer: Result<T, Refusal>, line: usize) -> Result<T, LineRefusal>
    ensures { result ≡ at_line line answer }
{
    answer.map_err(|refusal| LineRefusal { refusal, line })
}

#[derive(Clone, Copy)]
pub struct LineScan {
    pub end: usize,
    pub tabs: usize,
}

// Where LF ends the first line, or the text's length; and the tabs before it.
pub fn scan_line(text: &[u8]) -> LineScan
    ensures { result ≡ line_scan text.now }
{
    let mut tabs: usize = 0;
    for (i, byte) in text.iter().enumerate() {
        // Most bytes are above LF and tab, and need one test.
        if *byte <= LINE_FEED {
            match *byte {
                LINE_FEED => return LineScan { end: i, tabs },
                TAB => tabs += 1,
                _ => (),
            }
        }
    }
    LineScan {
        end: text.len(),
        tabs,
    }
}

// The checks of the first line before its fields: LF ends it, and it has so many tabs.
pub fn check_line(text: &[u8], tabs: usize) -> Line<()>
    ensures answer_value { answer_of result.answer ≡ line_of (has_fields (tabs + 1)) text.now }
    ensures next_value { result.next ≡ index_of LF text.now + 1 }
{
    let scan = scan_line(text);
    let answer = if text.len() <= scan.end {
        Err(Refusal::NoLineEnd)
    } else if scan.tabs != tabs {
        Err(Refusal::FieldCount)
    } else {
        Ok(())
    };
    Line {
        answer,
        next: scan.end + 1,
    }
}

// Where `byte` stands first, or the length.
pub fn find(s: &[u8], byte: u8) -> usize
    ensures { result ≡ index_of byte s.now }
{
    s.iter().position(|b| *b == byte).unwrap_or(s.len())
}

// The number reader over the first field, which ends at the separator or with the part.
pub fn scan_field(part: &[u8], separator: u8) -> Field<Reader>
    ensures { result ≡ field_scan separator part.now }
{
    let mut reader = Reader::new();
    for (i, byte) in part.iter().enumerate() {
        if *byte == separator {
            return Field {
                answer: reader,
                length: i,
            };
        }
        reader = reader.push(*byte);
    }
    Field {
        answer: reader,
        length: part.len(),
    }
}

// The first field as an unsigned number from `low` to `high`.
#[tactic(auto, unfolding(crate::specs::Scans::field_scan))]
pub fn number_field(part: &[u8], separator: u8, low: u32, high: u32) -> Field<Result<u32, Fault>>
    ensures answer_value { natural_answer result.answer ≡ number_field low high (before separator part.now) }
    ensures length_value { result.length ≡ index_of separator part.now }
{
    let scan = scan_field(part, separator);
    Field {
        answer: scan.answer.natural(low, high),
        length: scan.length,
    }
}

// The first field, which a tab ends, as a number from 1 to `high`.
pub fn byte_field(part: &[u8], high: u8) -> Field<Result<u8, Fault>>
    ensures answer_value { natural_answer result.answer ≡ number_field 1 high (before tab part.now) }
    ensures length_value { result.length ≡ index_of tab part.now }
{
    let field = number_field(part, TAB, 1, u32::from(high));
    Field {
        answer: field.answer.map(|value| value as u8),
        length: field.length,
    }
}

#[tactic(auto, unfolding(crate::specs::Scans::reading_by))]
fn reading_answer(reader: Reader) -> Result<Reading, Fault>
    ensures { fault_answer result ≡ reading_by reader }
{
    if reader.is_dash() {
        return Ok(None);
    }
    Ok(Some(reader.integer()?))
}

// The first field as a reading.
#[tactic(auto, unfolding(crate::specs::Scans::field_scan))]
pub fn reading_field(part: &[u8], separator: u8) -> Field<Result<Reading, Fault>>
    ensures answer_value { fault_answer result.answer ≡ reading_field (before separator part.now) }
    ensures length_value { result.length ≡ index_of separator part.now }
{
    let scan = scan_field(part, separator);
    Field {
        answer: reading_answer(scan.answer),
        length: scan.length,
    }
}

// What stands at `i`, or 0 past the end.
pub fn byte_at(s: &[u8], i: usize) -> u8
    ensures { result ≡ get_or s.now i 0 }
{
    s.get(i).copied().unwrap_or(0)
}

// The part from `i` on, empty past the end.
pub fn part_from(s: &[u8], i: usize) -> &[u8]
    ensures { result.now ≡ drop i s.now }
{
    s.get(i..).unwrap_or_default()
}

// The part before `i`, or all of it.
pub fn part_before(s: &[u8], i: usize) -> &[u8]
    ensures { result.now ≡ take i s.now }
{
    s.get(..i).unwrap_or(s)
}

// What follows the separator that stands at `length`; nothing past the end.
pub fn rest_of(part: &[u8], length: usize) -> &[u8]
    ensures { result.now ≡ drop (length + 1) part.now }
{
    part_from(part_from(part, length), 1)
}

// `-` alone.
#[tactic(auto, unfolding(number::specs::Number::dash, number::specs::Number::none))]
pub fn is_dash(field: &[u8]) -> bool
    ensures { result ≡ dash field.now }
{
    matches!(field, b"-")
}
