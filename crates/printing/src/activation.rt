// The lines of activations: rule, position, letter, target.
ghost use Rattle.line.specs.Texts.{written_line, written_text};
ghost use Rattle.printing.specs.Lines.{activation_line, line_fields};
ghost use Rattle.printing.specs.Report.{position_lines};
ghost use Rattle.buffer.specs.Puts.{Put};

use buffer::put::Output;
use declare::Standing;
use line::{LINE_FEED, TAB};

fn put_activation(out: &mut Output<'_>, rule: u32, position: u32, letter: u8, target: u16)
    ensures { Put (written_line line_fields (activation_line rule position letter target)) out.old out.new }
{
    out.put_number_field(rule, TAB);
    out.put_number_field(position, TAB);
    out.put_byte(letter);
    out.put_byte(TAB);
    out.put_number_field(u32::from(target), LINE_FEED);
}

// The line of a position, if it is an activation.
pub fn put_position(out: &mut Output<'_>, rule: u32, position: u32, s: Standing)
    ensures { Put (written_text line_fields (position_lines rule position s)) out.old out.new }
{
    match s {
        Standing::Idle => (),
        Standing::Open => put_activation(out, rule, position, b'O', 0),
        Standing::Fulfilled(target) => put_activation(out, rule, position, b'F', target),
        Standing::Violated(target) => put_activation(out, rule, position, b'V', target),
    }
}
