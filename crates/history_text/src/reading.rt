ghost use Rattle.std.specs.Prelude.{◌≡◌, ◌<◌, ◌^◌, ℕ, List, length, IfErr, IfOk, Err};
ghost use Rattle.rapid_model.specs.declared.event.Event.{Event};
ghost use Rattle.rapid_model.specs.declared.fate.Fate.{Fate};
ghost use Rattle.history_text.specs.HistoryText.{AreNamed, IsFirstFault, Spells};
ghost use Rattle.history_text.specs.Named.{view_names};

use crate::history_fault::HistoryFault;
use crate::names::Names;
use crate::one_line::{read_event, read_fate};
use arrayvec::ArrayString;
use rapid_model::{Event, Fate};
use std::alloc::Global;

/// The events and the fates that a text spells: whole lines, first zero or more of events that fit the names, then zero
/// or more of the fates of the first tasks.
pub fn read_history(
    alloc: Global,
    names: &Names,
    text: &[u8],
) -> Result<(Vec<Event>, Vec<Fate>), HistoryFault>
    requires names { AreNamed names.now.tasks.now }
    requires short { length text.now < 2 ^ 31 }
    // What is read spells the text.
    ensures read { IfOk result (λ r. Spells (view_names names.now) text.now r.0.items r.1.items) }
    // What spells the text is read, and nothing else,
    ensures only { (events : List Event) (fates : List Fate) → Spells (view_names names.now) text.now events fates → IfOk result (λ r. (r.0.items ≡ events) × (r.1.items ≡ fates)) }
    // unless memory runs out.
    ensures unless { (events : List Event) (fates : List Fate) → Spells (view_names names.now) text.now events fates → IfErr result (λ e. e ≡ HistoryFault.Memory) }
    // Otherwise the first line with which the lines so far no longer start any history.
    ensures line { (number : ℕ) → result ≡ Err (HistoryFault.Line number) → IsFirstFault (view_names names.now) text.now number }
{
    let mut events = Vec::new(alloc);
    let mut fates = Vec::new(alloc);
    let mut room = ArrayString::new();
    let mut rest = text;
    let mut number = 0;
    while !rest.is_empty() {
        number += 1;
        let done = fates.len();
        if let Some(more) = read_event(names, done, rest, &mut events, &mut room)? {
            rest = more;
            continue;
        }
        let Some((fate, more)) = read_fate(names, done, rest, &mut room) else {
            return Err(HistoryFault::Line(number));
        };
        fates.push(fate)?;
        rest = more;
    }
    Ok((events, fates))
}
