// Lent buffers: bytes and numbers are put at a place, and a whole text is written in front.
#![tactic(auto)]

ghost use Rattle.std.specs.Prelude.{true};
ghost use Rattle.buffer.specs.Writes.{Writes};

use declare::Refusal;

pub mod put; // put.rt: bytes
pub mod numbers; // numbers.rt: numbers, and the fields that hold them

// The text in front of the buffer, the bytes beyond it as they were; the answer is the text's
// length. Refused with 15.
pub fn write(text: &[u8], out: &mut [u8]) -> Result<usize, Refusal>
    ensures { Writes true text.now out.old out.new result }
{
    if out.len() < text.len() {
        return Err(Refusal::BufferTooShort);
    }
    out[..text.len()].copy_from_slice(text);
    Ok(text.len())
}
