// Answers of 16 bytes.
use declare::{Refusal, Standing};
use standings::totals::Totals;
use std::io;

// A standing in four bytes: kind, 0, target.
pub fn standing_bytes(s: Standing) -> [u8; 4] {
    let (kind, target) = match s {
        Standing::Idle => (0, 0),
        Standing::Open => (1, 0),
        Standing::Fulfilled(target) => (2, target),
        Standing::Violated(target) => (3, target),
    };
    let [low, high] = target.to_le_bytes();
    [kind, 0, low, high]
}

// Totals in eight bytes: activations, fulfilled, violated, open.
pub fn totals_bytes(t: Totals) -> [u8; 8] {
    let [a, b] = t.activations.to_le_bytes();
    let [c, d] = t.fulfilled.to_le_bytes();
    let [e, f] = t.violated.to_le_bytes();
    let [g, h] = t.open.to_le_bytes();
    [a, b, c, d, e, f, g, h]
}

pub fn accepted(rt: &impl Print) -> io::Result<()> {
    rt.write_all(&[0u8; 16])
}

pub fn refused(rt: &impl Print, refusal: Refusal, line: usize, text: u8) -> io::Result<()> {
    let mut answer = [0u8; 16];
    answer[0] = refusal.number();
    answer[5] = text;
    if refusal.has_line() {
        let [low, high] = ((line % 65536) as u16).to_le_bytes();
        answer[1] = 1;
        answer[2] = low;
        answer[3] = high;
    }
    rt.write_all(&answer)
}

// The answer of a call: the bytes of its value, or the refusal, which has no line.
pub fn called<P: Print, T, F: FnOnce(T) -> [u8; 16]>(
    rt: &P,
    answer: Result<T, Refusal>,
    bytes: F,
) -> io::Result<()>
    requires { F.IsAlwaysCallable bytes }
{
    match answer {
        Ok(value) => rt.write_all(&bytes(value)),
        Err(refusal) => refused(rt, refusal, 0, 0),
    }
}

pub fn done(_: ()) -> [u8; 16] {
    [0; 16]
}

pub fn standing(s: Standing) -> [u8; 16] {
    let [kind, zero, low, high] = standing_bytes(s);
    [0, 0, 0, 0, kind, zero, low, high, 0, 0, 0, 0, 0, 0, 0, 0]
}

pub fn totals(t: Totals) -> [u8; 16] {
    let [a, b, c, d, e, f, g, h] = totals_bytes(t);
    [0, 0, 0, 0, 0, 0, 0, 0, a, b, c, d, e, f, g, h]
}

// The length of a text that was written.
pub fn written(length: usize) -> [u8; 16] {
    let [a, b, c, d, e, f, g, h] = length.to_le_bytes();
    [0, 0, 0, 0, 0, 0, 0, 0, a, b, c, d, e, f, g, h]
}
