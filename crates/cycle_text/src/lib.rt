// Cycle texts: the events of a whole text, or the first refusal with its line.
#![tactic(auto)]

ghost use Rattle.std.specs.Prelude.{◌≡◌, ◌+◌, List, length};
ghost use Rattle.declare.specs.Answers.{answer_of};
ghost use Rattle.declare.specs.Events.{last_time};
ghost use Rattle.line.specs.Fields.{LF, index_of, fields_from};
ghost use Rattle.line.specs.Texts.{line_of};
ghost use Rattle.cycle_text.specs.Types.{Event as AnEvent};
ghost use Rattle.cycle_text.specs.Cycle.{event_of};
ghost use Rattle.cycle_text.specs.Reads.{below, ReadsCycle};

use declare::slots::empty_slot;
use declare::{EVENTS, Event, LAST_ACTIVITY, Refusal};
use line::{
    LINE_FEED, Line, LineRefusal, TAB, at_line, byte_field, check_line, number_field, part_from,
    reading_field, rest_of,
};

// The tabs between the six fields of a line.
const TABS: usize = 5;

// A line of six fields, each read from the part of the line that begins at it.
fn read_event(part: &[u8]) -> Result<Event, Refusal>
    ensures { answer_of result ≡ event_of (fields_from 5 part.now) }
{
    let field = number_field(part, TAB, 0, u32::MAX);
    let time = field.answer?;
    let part = rest_of(part, field.length);
    let field = byte_field(part, LAST_ACTIVITY);
    let activity = field.answer?;
    let part = rest_of(part, field.length);
    let field = reading_field(part, TAB);
    let reading1 = field.answer?;
    let part = rest_of(part, field.length);
    let field = reading_field(part, TAB);
    let reading2 = field.answer?;
    let part = rest_of(part, field.length);
    let field = reading_field(part, TAB);
    let reading3 = field.answer?;
    let part = rest_of(part, field.length);
    let field = reading_field(part, LINE_FEED);
    let reading4 = field.answer?;
    Ok(Event {
        time,
        activity,
        reading1,
        reading2,
        reading3,
        reading4,
    })
}

// The first line, and where the next one begins.
pub fn cycle_line(rest: &[u8]) -> Line<Event>
    ensures answer_value { answer_of result.answer ≡ line_of event_of rest.now }
    ensures next_value { result.next ≡ index_of LF rest.now + 1 }
{
    let line = check_line(rest, TABS);
    Line {
        answer: line.answer.and_then(|()| read_event(rest)),
        next: line.next,
    }
}

// The first `count` of 256 events.
#[derive(Clone, Copy)]
pub struct Events {
    pub count: usize,
    pub events: [Event; EVENTS],
}

// The event of a line below `count` events, the last of which is at `last`.
fn in_order(answer: Result<Event, Refusal>, last: u32, count: usize) -> Result<Event, Refusal>
    ensures { (above : List AnEvent) → last ≡ last_time above → count ≡ length above
        → answer_of result ≡ below above (answer_of answer) }
{
    let event = answer?;
    if event.time < last {
        return Err(Refusal::TimeFalls);
    }
    if EVENTS <= count {
        return Err(Refusal::TooMany);
    }
    Ok(event)
}

// The events of a cycle text.
pub fn read_cycle(text: &[u8]) -> Result<Events, LineRefusal>
    ensures { ReadsCycle text.now result }
{
    let mut events = [empty_slot(); EVENTS];
    let mut count: usize = 0;
    let mut last: u32 = 0;
    let mut rest = text;
    while !rest.is_empty() {
        let line = cycle_line(rest);
        let event = at_line(in_order(line.answer, last, count), count + 1)?;
        events[count] = event;
        count += 1;
        last = event.time;
        rest = part_from(rest, line.next);
    }
    Ok(Events { count, events })
}
