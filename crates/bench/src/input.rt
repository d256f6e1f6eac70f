// The parts of the input.
use declare::LATEST;

// The number before the first `end`, or 0.
pub fn number(part: &[u8], end: u8) -> usize {
    let field = line::number_field(part, end, 0, LATEST);
    field.answer.unwrap_or(0) as usize
}

// What follows the first `end`.
pub fn after(part: &[u8], end: u8) -> &[u8] {
    let at = line::find(part, end);
    line::part_from(line::part_from(part, at), 1)
}

// The text with which the cycles begin.
pub fn cycle_of(rest: &[u8]) -> &[u8] {
    let bytes = number(rest, b'\n');
    line::part_before(after(rest, b'\n'), bytes)
}

// Where the next cycle begins, after the one at `at`.
pub fn next_at(rest: &[u8], at: usize) -> usize {
    let part = line::part_from(rest, at);
    let bytes = number(part, b'\n');
    let left = line::part_from(after(part, b'\n'), bytes);
    rest.len().saturating_sub(left.len())
}
