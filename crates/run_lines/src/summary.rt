ghost use Rattle.std.specs.Prelude.{◌≡◌, ◌≤◌, [], ◌∷◌, ◌++◌, length, codes, decimal};
ghost use Rattle.cell_meaning.specs.Motion.{is_given};
ghost use Rattle.run_lines.specs.Output.{all_given, last_total, summary_line, summary_lines, total_words};
ghost use Rattle.sink_lines.specs.Printed.{sunk};
ghost use Rattle.sink_lines.specs.Written.{Writes};

use arrayvec::ArrayString;
use cell_core::Core;
use outside::{Failed, Sink};
use rapid_model::{Answer, Event, PartName, Path, Request, Value};
use sink_lines::write_all;
use value_text::{push_count, push_value};

/// Room for a line with a count, in bytes.
const COUNT_LINE_BYTES: usize = 64;

/// Room for the line with a value, in bytes.
const TOTAL_LINE_BYTES: usize = 256;

/// Prints the number of events of a run, the number of setpoints given, and the last value of the cell's first
/// persistent.
pub(crate) fn print_summary<O: Sink>(out: &mut O, core: &Core) -> Result<(), Failed>
    ensures { Writes (summary_lines core.now.cell core.now.history) result (sunk O.told O.calls O.faults out.old out.new) }
{
    print_count(out, "events", core.len())?;
    print_count(out, "setpoints", all_given(core))?;
    print_total(out, last_total(core))
}

/// Prints a number of the summary.
fn print_count<O: Sink>(out: &mut O, name: &'static str, count: u32) -> Result<(), Failed>
    requires { length name.now ≤ 20 }
    ensures { Writes (summary_line name.now (decimal count) ∷ []) result (sunk O.told O.calls O.faults out.old out.new) }
{
    let mut line = ArrayString::<COUNT_LINE_BYTES>::new();
    line.push_str("L ");
    line.push_str(name);
    line.push(' ');
    push_count(count as usize, &mut line);
    line.push('\n');
    write_all(out, line.as_str().as_bytes())
}

/// Prints the value in the summary, if there is one.
fn print_total<O: Sink>(out: &mut O, total: Option<Value>) -> Result<(), Failed>
    ensures { Writes (summary_line (codes "total") (total_words total) ∷ []) result (sunk O.told O.calls O.faults out.old out.new) }
{
    let mut line = ArrayString::<TOTAL_LINE_BYTES>::new();
    line.push_str("L total ");
    push_total(total, &mut line);
    line.push('\n');
    write_all(out, line.as_str().as_bytes())
}

fn push_total(total: Option<Value>, line: &mut ArrayString<TOTAL_LINE_BYTES>)
    requires { length line.old.bytes ≤ 8 }
    ensures text { line.new.bytes ≡ line.old.bytes ++ total_words total }
    ensures short { length line.new.bytes ≤ 208 }
{
    if let Some(value) = total {
        push_value(&value, line);
    }
}

/// How many setpoints the arms were given.
fn all_given(core: &Core) -> u32
    ensures { result ≡ all_given core.now.history }
{
    let mut given = 0;
    for k in 0..core.len() {
        if is_given(&core.event(k)) {
            given += 1;
        }
    }
    given
}

/// Whether the event gives a setpoint.
fn is_given(event: &Event) -> bool
    ensures { result ≡ is_given event.now.request event.now.answer }
{
    matches!(
        (&event.request, &event.answer),
        (Request::Setpoint { .. }, Answer::Given)
    )
}

/// The last value of the first persistent, if there is one and it is not an array.
fn last_total(core: &Core) -> Option<Value>
    ensures { result ≡ last_total core.now.cell core.now.history }
{
    let whole = Path {
        index: 0,
        part: PartName::Whole,
    };
    match core.cell().pers().as_slice().first() {
        Some(row) if row.len.is_none() => Some(core.pers(0, &whole)),
        _ => None,
    }
}
