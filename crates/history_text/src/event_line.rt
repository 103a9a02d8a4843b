ghost use Rattle.std.specs.Prelude.{◌≡◌, ◌+◌, ◌≤◌, [], ◌++◌, length};
ghost use Rattle.history_text.specs.Lines.{line_of, setpoint_line, task_axes, task_name, text_line};

use crate::axes::{axes_of, push_axes};
use crate::rooms::LINE_BYTES;
use crate::texts::{push_tail, push_text};
use arrayvec::ArrayString;
use rapid_limits::LONGEST_NAME;
use rapid_model::{Answer, Event, Request, Tail, TaskRow, Text};
use rapid_num::Joints;
use value_text::push_name;

/// Writes the event's line. A setpoint that was given: `S TASK` and each axis of its arm in degrees with three
/// decimals. A text to the operator: `T TASK`, a space, the text, and its tail right after it. The line stays empty for
/// an event that has none. Takes no memory.
pub fn write_event(tasks: &[TaskRow], event: &Event, line: &mut ArrayString<LINE_BYTES>)
    requires { line.old.bytes ≡ [] }
    ensures { line.new.bytes ≡ line_of tasks.now event.now }
{
    match (&event.request, &event.answer) {
        (Request::Setpoint { to }, Answer::Given) => write_setpoint(tasks, event.actor, to, line),
        (Request::Say { text, tail }, Answer::Ok) => write_text(
            tasks,
            event.actor,
            text,
            tail,
            line,
        ),
        _ => {}
    }
}

/// The line of a text for the operator.
fn write_text(
    tasks: &[TaskRow],
    actor: u32,
    text: &Text,
    tail: &Tail,
    line: &mut ArrayString<LINE_BYTES>,
)
    requires { line.old.bytes ≡ [] }
    ensures { line.new.bytes ≡ text_line (task_name tasks.now actor) text.now tail.now }
{
    line.push_str("T ");
    push_task(tasks, actor, line);
    line.push(' ');
    push_text(text, line);
    push_tail(tail, line);
    line.push('\n');
}

/// Writes the line of a setpoint that was given: `S TASK` and each axis of the task's arm in degrees with three decimals.
/// Takes no memory.
pub fn write_setpoint(
    tasks: &[TaskRow],
    actor: u32,
    to: &Joints,
    line: &mut ArrayString<LINE_BYTES>,
)
    requires { line.old.bytes ≡ [] }
    ensures { line.new.bytes ≡ setpoint_line (task_name tasks.now actor) (task_axes tasks.now actor) to.now }
{
    line.push_str("S ");
    push_task(tasks, actor, line);
    push_axes(axes_of(tasks, actor), to, line);
    line.push('\n');
}

/// Appends the name of a task, or nothing if there is no such task.
fn push_task(tasks: &[TaskRow], actor: u32, line: &mut ArrayString<LINE_BYTES>)
    requires room { length line.old.bytes + LONGEST_NAME ≤ LINE_BYTES }
    ensures text { line.new.bytes ≡ line.old.bytes ++ task_name tasks.now actor }
    ensures short { length line.new.bytes ≤ length line.old.bytes + LONGEST_NAME }
{
    if let Some(row) = tasks.get(actor as usize) {
        push_name(&row.name, line);
    }
}
