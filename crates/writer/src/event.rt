// Events as the lines of a cycle text.
ghost use Rattle.line.specs.Texts.{written_line};
ghost use Rattle.cycle_text.specs.Written.{event_fields, events_text};
ghost use Rattle.buffer.specs.Puts.{Put};

use crate::field::{put_byte_field, put_reading_field};
use buffer::put::Output;
use declare::Event;
use line::{LINE_FEED, TAB};

fn put_event(out: &mut Output<'_>, e: Event)
    ensures { Put (written_line event_fields e) out.old out.new }
{
    out.put_number_field(e.time, TAB);
    put_byte_field(out, e.activity, TAB);
    put_reading_field(out, e.reading1, TAB);
    put_reading_field(out, e.reading2, TAB);
    put_reading_field(out, e.reading3, TAB);
    put_reading_field(out, e.reading4, LINE_FEED);
}

pub fn put_events(out: &mut Output<'_>, events: &[Event])
    ensures { Put (events_text events.now) out.old out.new }
{
    for event in events {
        put_event(out, *event);
    }
}
