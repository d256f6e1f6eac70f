// Fields of small numbers and of readings.
ghost use Rattle.std.specs.Prelude.{[], ◌∷◌, ◌++◌};
ghost use Rattle.number.specs.Written.{digits_of};
ghost use Rattle.line.specs.Values.{reading_text};
ghost use Rattle.buffer.specs.Puts.{Put};

use buffer::put::Output;
use declare::Reading;

// A code or an activity, and the byte that ends its field.
pub fn put_byte_field(out: &mut Output<'_>, n: u8, end: u8)
    ensures { Put (digits_of n ++ (end ∷ [])) out.old out.new }
{
    out.put_number_field(u32::from(n), end);
}

fn put_reading(out: &mut Output<'_>, reading: Reading)
    ensures { Put (reading_text reading) out.old out.new }
{
    match reading {
        None => out.put_byte(b'-'),
        Some(z) => out.put_integer(z),
    }
}

// A reading, and the byte that ends its field.
pub fn put_reading_field(out: &mut Output<'_>, reading: Reading, end: u8)
    ensures { Put (reading_text reading ++ (end ∷ [])) out.old out.new }
{
    put_reading(out, reading);
    out.put_byte(end);
}
