ghost use Rattle.std.specs.Prelude.{◌↔◌, ◌<◌, List, length, IsTrue};
ghost use Rattle.rapid_model.specs.declared.task_row.TaskRow.{TaskRow};
ghost use Rattle.history_text.specs.Lines.{line_of};

use rapid_model::{Answer, Event, Request};

/// Whether the event has a line: a setpoint that was given, or a text to the operator. The tasks do not matter.
pub fn has_line(event: &Event) -> bool
    ensures { (tasks : List TaskRow) → IsTrue result ↔ 0 < length (line_of tasks event.now) }
{
    match (&event.request, &event.answer) {
        (Request::Setpoint { .. }, Answer::Given) => true,
        (Request::Say { .. }, Answer::Ok) => true,
        _ => false,
    }
}
