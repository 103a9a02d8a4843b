ghost use Rattle.std.specs.Prelude.{◌≡◌, ◌+◌, ◌<◌, ◌≤◌, ◌^◌, ◌++◌, [], All, codes, length};
ghost use Rattle.rapid_limits.specs.declared.TheConstants.{LONGEST_FILE_NAME};
ghost use Rattle.history_text.specs.EventLines.{actor_words};
ghost use Rattle.history_text.specs.EventWords.{answer_words, request_words};
ghost use Rattle.state_text.specs.Seen.{view_sources};
ghost use Rattle.state_text.specs.TraceLines.{trace_line};

use crate::place::push_place;
use crate::rooms::{HEAD_BYTES, LINE_BYTES};
use crate::sources::Sources;
use arrayvec::ArrayString;
use history_text::{Names, answer_words, request_words};
use rapid_limits::LONGEST_NAME;
use rapid_model::{At, Event, TaskRow};
use value_text::push_name;

/// Writes `M`, the name of the task that asks, `-` for the input script; the file, the line and the column of the place,
/// `- -` without one; what is asked, `>`, and the answer. `sources` are the modules of the task. Takes no memory.
pub fn write_trace(
    names: &Names<'_>,
    sources: &Sources<'_>,
    place: Option<At>,
    event: &Event,
    line: &mut ArrayString<LINE_BYTES>,
)
    requires files { All (λ file. length file ≤ LONGEST_FILE_NAME) sources.now.files.now }
    requires texts { All (λ text. length text.items < 2 ^ 31) sources.now.texts.now }
    requires empty { line.old.bytes ≡ [] }
    ensures { line.new.bytes ≡ trace_line names.now.tasks.now (view_sources sources.now) place event.now }
{
    line.push_str("M ");
    push_actor(names.tasks, event.actor, line);
    line.push(' ');
    push_place(sources, place, line);
    line.push(' ');
    push_event(names, event, line);
    line.push('\n');
}

/// Appends the name of a task, or `-` for the input script.
fn push_actor(tasks: &[TaskRow], actor: u32, line: &mut ArrayString<LINE_BYTES>)
    requires room { length line.old.bytes + LONGEST_NAME ≤ LINE_BYTES }
    ensures text { line.new.bytes ≡ line.old.bytes ++ actor_words tasks.now actor }
    ensures short { length line.new.bytes ≤ length line.old.bytes + LONGEST_NAME }
{
    match tasks.get(actor as usize) {
        Some(row) => push_name(&row.name, line),
        None => line.push('-'),
    }
}

/// Appends what is asked, and the answer.
fn push_event(names: &Names<'_>, event: &Event, line: &mut ArrayString<LINE_BYTES>)
    requires room { length line.old.bytes ≤ HEAD_BYTES }
    ensures text { line.new.bytes ≡ line.old.bytes ++ (request_words event.now.request ++ (codes " > " ++ answer_words event.now.answer)) }
    ensures short { length line.new.bytes + 1 ≤ LINE_BYTES }
{
    let mut asked = ArrayString::new();
    request_words(names, &event.request, &mut asked);
    line.push_str(asked.as_str());
    line.push_str(" > ");
    let mut given = ArrayString::new();
    answer_words(names, &event.answer, &mut given);
    line.push_str(given.as_str());
}
