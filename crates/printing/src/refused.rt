// The line of a refusal: `refused`, the word of the text, number, line.
ghost use Rattle.std.specs.Prelude.{true};
ghost use Rattle.line.specs.Texts.{written_line};
ghost use Rattle.printing.specs.Lines.{refused_line, line_fields};
ghost use Rattle.printing.specs.Report.{word_of};
ghost use Rattle.buffer.specs.Puts.{Put};
ghost use Rattle.buffer.specs.Writes.{Writes};

use buffer::put::Output;
use buffer::write;
use declare::Refusal;
use line::{LINE_FEED, TAB};
use notebook::Text;

// The most bytes of the line: a word of 5 bytes, a number of 3 digits and a line of 10.
const REFUSED_BYTES: usize = 29;

// The line with any word.
pub fn put_refused(out: &mut Output<'_>, word: &[u8], number: u8, line: u32)
    ensures { Put (written_line line_fields (refused_line word.now number line)) out.old out.new }
{
    out.put_bytes(b"refused\t");
    out.put_bytes(word);
    out.put_byte(TAB);
    out.put_number_field(u32::from(number), TAB);
    out.put_number_field(line, LINE_FEED);
}

fn put_word(out: &mut Output<'_>, text: Text, number: u8, line: u32)
    ensures { Put (written_line line_fields (refused_line (word_of text) number line)) out.old out.new }
{
    match text {
        Text::Rules => put_refused(out, b"rules", number, line),
        Text::Cycle => put_refused(out, b"cycle", number, line),
    }
}

// The line of one of the two texts. Refused with 15.
pub fn write_refused(text: Text, number: u8, line: u32, out: &mut [u8]) -> Result<usize, Refusal>
    ensures { Writes true (written_line line_fields (refused_line (word_of text) number line)) out.old out.new result }
{
    let mut bytes = [0u8; REFUSED_BYTES];
    let mut put = Output {
        bytes: &mut bytes,
        at: 0,
    };
    put_word(&mut put, text, number, line);
    let length = put.at;
    write(&bytes[..length], out)
}
