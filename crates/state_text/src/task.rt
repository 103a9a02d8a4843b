ghost use Rattle.std.specs.Prelude.{◌≡◌, ◌+◌, ◌<◌, ◌≤◌, ◌^◌, ◌++◌, [], All, length};
ghost use Rattle.rapid_limits.specs.declared.TheConstants.{LONGEST_FILE_NAME};
ghost use Rattle.state_text.specs.Seen.{view_sources};
ghost use Rattle.state_text.specs.StateLines.{next_text, task_line};

use crate::place::push_place;
use crate::rooms::{HEAD_BYTES, LINE_BYTES};
use crate::sources::Sources;
use arrayvec::ArrayString;
use cell_state::TaskState;
use history_text::{Names, request_words};
use rapid_model::{NameText, Request};
use value_text::push_name;

/// Writes `N`, the name of a task, the file, the line and the column of the statement that began last or, while a Look
/// is due, asks to begin, `- -` before the first Look; and what the task asks next, `ended` if it has ended. Takes no
/// memory.
pub fn write_task(
    names: &Names<'_>,
    name: &NameText,
    sources: &Sources<'_>,
    state: &TaskState,
    line: &mut ArrayString<LINE_BYTES>,
)
    requires files { All (λ file. length file ≤ LONGEST_FILE_NAME) sources.now.files.now }
    requires texts { All (λ text. length text.items < 2 ^ 31) sources.now.texts.now }
    requires empty { line.old.bytes ≡ [] }
    ensures { line.new.bytes ≡ task_line name.now (view_sources sources.now) state.now }
{
    line.push_str("N ");
    push_name(name, line);
    line.push(' ');
    push_place(sources, state.place, line);
    line.push(' ');
    push_next(names, &state.next, line);
    line.push('\n');
}

/// Appends what a task asks next.
fn push_next(names: &Names<'_>, next: &Option<Request>, line: &mut ArrayString<LINE_BYTES>)
    requires room { length line.old.bytes ≤ HEAD_BYTES }
    ensures text { line.new.bytes ≡ line.old.bytes ++ next_text next.now }
    ensures short { length line.new.bytes + 1 ≤ LINE_BYTES }
{
    match next {
        None => line.push_str("ended"),
        Some(request) => {
            let mut words = ArrayString::new();
            request_words(names, request, &mut words);
            line.push_str(words.as_str());
        }
    }
}
