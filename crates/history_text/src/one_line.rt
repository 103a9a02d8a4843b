//! Reading one line: what is read is written again, and must be what the text has there.

ghost use Rattle.std.specs.Prelude.{◌≡◌, IfNone, IfOk, IfSome};
ghost use Rattle.std.specs.Option.{option_map};
ghost use Rattle.history_text.specs.EventLines.{event_line};
ghost use Rattle.history_text.specs.HistoryText.{AreNamed};
ghost use Rattle.history_text.specs.Lines.{fate_line};
ghost use Rattle.history_text.specs.Named.{view_names};
ghost use Rattle.history_text.specs.NextLine.{BeginsFate, BeginsNoFate, ReadsEvent};
ghost use Rattle.history_text.specs.Reading.{after_word};

use crate::fate_line::write_fate;
use crate::fitting::event_fits;
use crate::line_reading::{event_at, fate_line_at};
use crate::names::Names;
use crate::ranges::{event_is_in_range, fate_is_in_range};
use crate::rooms::LINE_BYTES;
use crate::whole_line::line_of;
use crate::words::after_word;
use arrayvec::ArrayString;
use rapid_model::{Event, Fate, NameText};
use std::alloc::AllocError;

/// Reads the event whose line starts a text, after this many fates, and appends it to the events so far. Returns what
/// follows the line. Returns `None`, and leaves the events as they are, exactly if no event may come there, as after a
/// fate. `room` is the buffer for lines.
pub(crate) fn read_event<'a>(
    names: &Names,
    done: usize,
    text: &'a [u8],
    events: &mut Vec<Event>,
    room: &mut ArrayString<LINE_BYTES>,
) -> Result<Option<&'a [u8]>, AllocError>
    requires { AreNamed names.now.tasks.now }
    ensures { IfOk result (λ o. ReadsEvent (view_names names.now) done text.now events.old.items events.new.items (option_map (λ x. x.now) o)) }
{
    if done > 0 {
        return Ok(None);
    }
    let Some(event) = event_at(names, text) else {
        return Ok(None);
    };
    event_is_in_range(&event);
    if !event_fits(names, &event) {
        return Ok(None);
    }
    let Some(more) = after_event(names, &event, text, room) else {
        return Ok(None);
    };
    events.push(event)?;
    Ok(Some(more))
}

/// What follows the line of an event.
fn after_event<'a>(
    names: &Names,
    event: &Event,
    text: &'a [u8],
    room: &mut ArrayString<LINE_BYTES>,
) -> Option<&'a [u8]>
    ensures { option_map (λ x. x.now) result ≡ after_word (event_line names.now.tasks.now event.now) text.now }
{
    room.clear();
    line_of(names, event, true, room);
    after_word(text, room.as_str().as_bytes())
}

/// Reads the fate of the next task, after those of this many, and returns it with what follows its line: `None` exactly
/// if no such line starts the text. `room` is the buffer for lines.
pub(crate) fn read_fate<'a>(
    names: &Names,
    done: usize,
    text: &'a [u8],
    room: &mut ArrayString<LINE_BYTES>,
) -> Option<(Fate, &'a [u8])>
    ensures some { IfSome result (λ x. BeginsFate (view_names names.now) done text.now x.0 x.1.now) }
    ensures none { IfNone result (BeginsNoFate (view_names names.now) done text.now) }
{
    let Some(row) = names.tasks.get(done) else {
        return None;
    };
    let Some(fate) = fate_line_at(row.name.bytes(), text) else {
        return None;
    };
    fate_is_in_range(fate);
    let Some(more) = after_fate(&row.name, fate, text, room) else {
        return None;
    };
    Some((fate, more))
}

/// What follows the line of a fate.
fn after_fate<'a>(
    name: &NameText,
    fate: Fate,
    text: &'a [u8],
    room: &mut ArrayString<LINE_BYTES>,
) -> Option<&'a [u8]>
    ensures { option_map (λ x. x.now) result ≡ after_word (fate_line name.now fate) text.now }
{
    room.clear();
    write_fate(name, &fate, room);
    after_word(text, room.as_str().as_bytes())
}
