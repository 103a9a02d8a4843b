ghost use Rattle.std.specs.Prelude.{◌≡◌, ◌+◌, ◌≤◌, [], ◌++◌, length, if◌then◌else◌};
ghost use Rattle.history_text.specs.EventLines.{actor_words, event_line};
ghost use Rattle.history_text.specs.Lines.{line_of};

use crate::answers::push_answer;
use crate::event_line::write_event;
use crate::names::Names;
use crate::requests::push_request;
use crate::rooms::LINE_BYTES;
use arrayvec::ArrayString;
use rapid_limits::LONGEST_NAME;
use rapid_model::{Event, TaskRow};
use value_text::push_name;

/// Writes the event's line. With `full`, the line that each event has: `H ACTOR REQUEST > ANSWER`, where `-` is the
/// actor of the input script. Otherwise the line of a setpoint that was given or of a text to the operator, and nothing
/// for other events. Takes no memory.
pub fn line_of(names: &Names, event: &Event, full: bool, line: &mut ArrayString<LINE_BYTES>)
    requires empty { line.old.bytes ≡ [] }
    ensures { line.new.bytes ≡ (if full then event_line names.now.tasks.now event.now else line_of names.now.tasks.now event.now) }
{
    if full {
        write_whole(names.tasks, event, line);
    } else {
        write_event(names.tasks, event, line);
    }
}

/// Writes the line that each event has.
fn write_whole(tasks: &[TaskRow], event: &Event, line: &mut ArrayString<LINE_BYTES>)
    requires { line.old.bytes ≡ [] }
    ensures { line.new.bytes ≡ event_line tasks.now event.now }
{
    line.push_str("H ");
    push_actor(tasks, event.actor, line);
    line.push(' ');
    push_request(&event.request, line);
    line.push_str(" > ");
    push_answer(&event.answer, line);
    line.push('\n');
}

/// Appends the name of a task, or `-` for the input script.
fn push_actor(tasks: &[TaskRow], actor: u32, line: &mut ArrayString<LINE_BYTES>)
    requires room { length line.old.bytes + LONGEST_NAME ≤ LINE_BYTES }
    ensures text { line.new.bytes ≡ line.old.bytes ++ actor_words tasks.now actor }
    ensures short { length line.new.bytes ≤ length line.old.bytes + LONGEST_NAME }
{
    match tasks.get(actor as usize) {
        Some(row) => push_name(&row.name, line),
        None => line.push('-'),
    }
}
