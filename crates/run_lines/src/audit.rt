ghost use Rattle.std.specs.Prelude.{◌≡◌, ◌+◌, ◌≤◌, ◌++◌, ◌∷◌, [], Bool, Result, codes, decimal, length};
ghost use Rattle.history_text.specs.Lines.{task_name};
ghost use Rattle.run_lines.specs.Audits.{audit_line, found_words, whole_words, wrong_words};
ghost use Rattle.sink_lines.specs.Printed.{sunk};
ghost use Rattle.sink_lines.specs.Written.{Writes};

use arrayvec::ArrayString;
use history_audit::{AuditFault, Wrong};
use history_text::{LINE_BYTES, Names, answer_words, request_words};
use outside::{Failed, Sink};
use rapid_limits::LONGEST_NAME;
use sink_lines::write_all;
use value_text::{push_count, push_name};

/// Room for the words of a line before those of a request or an answer, in bytes.
const HEAD_BYTES: usize = 64;

/// Room for the line of an audit, in bytes.
const AUDIT_LINE_BYTES: usize = HEAD_BYTES + LINE_BYTES;

/// Prints what was found of a history of this many events. Takes no memory.
pub fn print_audit<O: Sink>(
    out: &mut O,
    names: &Names<'_>,
    count: usize,
    found: &Result<bool, AuditFault>,
) -> Result<(), Failed>
    ensures { Writes (audit_line names.now.tasks.now count found.now ∷ []) result (sunk O.told O.calls O.faults out.old out.new) }
{
    let mut line = ArrayString::new();
    line.push_str("A ");
    push_found(names, count, found, &mut line);
    line.push('\n');
    write_all(out, line.as_str().as_bytes())
}

/// Appends what was found.
fn push_found(
    names: &Names<'_>,
    count: usize,
    found: &Result<bool, AuditFault>,
    line: &mut ArrayString<AUDIT_LINE_BYTES>,
)
    requires { length line.old.bytes ≤ 2 }
    ensures text { line.new.bytes ≡ line.old.bytes ++ found_words names.now.tasks.now count found.now }
    ensures short { length line.new.bytes + 1 ≤ AUDIT_LINE_BYTES }
{
    match found {
        Ok(whole) => {
            line.push_str("legal ");
            push_count(count, line);
            line.push(' ');
            line.push_str(whole_name(*whole));
        }
        Err(AuditFault::Event { at, wrong }) => {
            line.push_str("event ");
            push_count(*at as usize, line);
            line.push(' ');
            push_wrong(names, wrong, line);
        }
        Err(AuditFault::Fate { task }) => {
            line.push_str("fate ");
            push_task(names, *task, line);
        }
    }
}

fn whole_name(whole: bool) -> &'static str
    ensures name { result.now ≡ whole_words whole }
    ensures short { length result.now ≤ 5 }
{
    if whole { "whole" } else { "open" }
}

/// Appends what is wrong with an event.
fn push_wrong(names: &Names<'_>, wrong: &Wrong, line: &mut ArrayString<AUDIT_LINE_BYTES>)
    requires { length line.old.bytes + 16 ≤ HEAD_BYTES }
    ensures text { line.new.bytes ≡ line.old.bytes ++ wrong_words wrong.now }
    ensures short { length line.new.bytes + 1 ≤ AUDIT_LINE_BYTES }
{
    match wrong {
        Wrong::Ended => line.push_str("ended"),
        Wrong::Waits => line.push_str("waits"),
        Wrong::Spent => line.push_str("spent"),
        Wrong::Asks(request) => {
            let mut words = ArrayString::new();
            request_words(names, request, &mut words);
            line.push_str("asks ");
            line.push_str(words.as_str());
        }
        Wrong::Answers(answer) => {
            let mut words = ArrayString::new();
            answer_words(names, answer, &mut words);
            line.push_str("answers ");
            line.push_str(words.as_str());
        }
    }
}

/// Appends the name of a task.
fn push_task(names: &Names<'_>, task: u32, line: &mut ArrayString<AUDIT_LINE_BYTES>)
    requires { length line.old.bytes + LONGEST_NAME ≤ HEAD_BYTES }
    ensures text { line.new.bytes ≡ line.old.bytes ++ task_name names.now.tasks.now task }
    ensures short { length line.new.bytes + 1 ≤ AUDIT_LINE_BYTES }
{
    if let Some(row) = names.tasks.get(task as usize) {
        push_name(&row.name, line);
    }
}
