//! Requests to persistents and signals (RAPID Kernel, assignment; RAPID Instructions, Functions and Data types: TestAndSet,
//! SetDO, TestDI).

ghost use Rattle.std.specs.Prelude.{◌≡◌, ◌<◌, true, length, slice_set, Some, IsTrue, if◌then◌else◌};
ghost use Rattle.rapid_model.specs.Paths.{fits_part, part_sort};
ghost use Rattle.rapid_model.specs.declared.sort.Sort.TheVariants as sorts;
ghost use Rattle.persist_store.specs.Stores.{IsStored, row_at};
ghost use Rattle.cell_meaning.specs.Answers.{is_false, value_of};
ghost use Rattle.cell_meaning.specs.Stored.{value_at};
ghost use Rattle.cell_core.specs.Boards.{elements_at, put_in};
ghost use Rattle.cell_core.specs.Changes.{pers_change, signal_change};
ghost use Rattle.cell_core.specs.Ready.{HasPart};

use crate::change::Change;
use crate::outcome::Outcome;
use persist_store::Store;
use rapid_model::{Answer, Path, Value, Watched};
use signal_board::Signals;

/// The value of a part of a persistent.
pub(crate) fn read(store: &Store, pers: u32, path: &Path) -> Value
    requires { HasPart store.now pers path.now }
    ensures there { value_at (elements_at store.now pers) path.now ≡ Some result }
    ensures fits { IsTrue (fits_part (row_at store.now pers).sort path.now.part result) }
{
    store.get(pers, path).unwrap()
}

/// The same, as an answer.
pub(crate) fn value_of(store: &Store, pers: u32, path: &Path) -> Answer
    requires { HasPart store.now pers path.now }
    ensures { result ≡ value_of (value_at (elements_at store.now pers) path.now) }
{
    Answer::Val(read(store, pers, path))
}

/// Writes a value to a part of a persistent, which it fits.
pub(crate) fn write(store: &mut Store, pers: u32, path: &Path, value: &Value) -> Change
    requires part { HasPart store.old pers path.now }
    requires fits { IsTrue (fits_part (row_at store.old pers).sort path.now.part value.now) }
    ensures change { result ≡ pers_change store.old pers path.now value.now }
    ensures store { store.new ≡ put_in store.old pers path.now value.now }
{
    let still = store.part(pers, path).unwrap().same(value);
    put(store, pers, path, value);
    Change::of_value(still, Watched::Pers { pers })
}

/// Sets a bool part of a persistent to TRUE if it is FALSE.
pub(crate) fn test_set(store: &mut Store, pers: u32, path: &Path) -> Outcome
    requires part { HasPart store.old pers path.now }
    requires bool { part_sort (row_at store.old pers).sort path.now.part ≡ Some sorts.Bool }
    ensures answer { result.answer ≡ Answer.Yes (is_false (value_at (elements_at store.old pers) path.now)) }
    ensures change { result.change ≡ (if is_false (value_at (elements_at store.old pers) path.now) then pers_change store.old pers path.now (Value.Bool true) else Change.Nothing) }
    ensures store { store.new ≡ (if is_false (value_at (elements_at store.old pers) path.now) then put_in store.old pers path.now (Value.Bool true) else store.old) }
{
    if let Value::Bool(false) = read(store, pers, path) {
        let change = write(store, pers, path, &Value::Bool(true));
        return Outcome {
            answer: Answer::Yes(true),
            change,
        };
    }
    Outcome {
        answer: Answer::Yes(false),
        change: Change::Nothing,
    }
}

fn put(store: &mut Store, pers: u32, path: &Path, value: &Value)
    requires part { HasPart store.old pers path.now }
    requires fits { IsTrue (fits_part (row_at store.old pers).sort path.now.part value.now) }
    ensures { IsStored store.old store.new pers path.now value.now }
{
    if let Ok(part) = store.part_mut(pers, path) {
        part.copy_from(value);
    }
}

/// Sets a signal to a value.
pub(crate) fn set_signal(signals: &mut Signals, signal: u32, value: bool) -> Change
    requires { signal < length signals.old }
    ensures change { result ≡ signal_change signals.old signal value }
    ensures signals { signals.new ≡ slice_set signals.old signal value }
{
    let changed = signals.set(signal, value);
    Change::of_value(!changed, Watched::Signal { signal, value })
}
