ghost use Rattle.std.specs.Prelude.{◌≡◌, ◌-◌, ◌<◌, length, reverse, slice_get, IfSome};
ghost use Rattle.std.specs.Option.{option_and_then};
ghost use Rattle.rapid_model.specs.declared.value.Value.TheVariants.{Num as OfNum};
ghost use Rattle.typed_trees.specs.declared.datum.Datum.TheVariants.{Plain};
ghost use Rattle.rapid_meaning.specs.Places.{place_in};
ghost use Rattle.machine_stacks.specs.Cuts.{IsCut};
ghost use Rattle.machine_stacks.specs.Forms.{as_num};
ghost use Rattle.machine_stacks.specs.FrameStack.{bases_of, end_of, index_in, written};

use crate::held::Held;
use crate::mark::Mark;
use crate::words::Words;
use rapid_num::Num;
use typed_trees::Lvalue;

/// The index among the values of all frames of a value of one, by the number of frames below it and its index in the
/// frame; none if there is none.
pub(crate) fn index_at(values: usize, marks: &[Mark], frame: usize, at: usize) -> Option<usize>
    requires { IsCut values (bases_of (reverse marks.now)) }
    ensures { result ≡ index_in values (reverse marks.now) frame at }
{
    if frame >= marks.len() {
        return None;
    }
    let base = marks[frame].base;
    let end = end_at(values, marks, frame + 1);
    if at < end - base {
        Some(base + at)
    } else {
        None
    }
}

/// The index among the values of all frames of a value of the innermost one, by its index in the frame; none if there
/// is none.
pub(crate) fn innermost_at(values: usize, marks: &[Mark], at: usize) -> Option<usize>
    requires { IsCut values (bases_of (reverse marks.now)) }
    ensures { result ≡ index_in values (reverse marks.now) (length marks.now - 1) at }
{
    let mark = marks.last()?;
    if at < values - mark.base {
        Some(mark.base + at)
    } else {
        None
    }
}

/// Where a frame ends: at the beginning of the next one, or with the values if it is the last.
fn end_at(values: usize, marks: &[Mark], next: usize) -> usize
    ensures { result ≡ end_of values marks.now next }
{
    match marks.get(next) {
        Some(mark) => mark.base,
        None => values,
    }
}

/// The datum at an index, if there is one. Does not allocate.
pub(crate) fn datum_at(values: &Words, index: Option<usize>) -> Option<Held>
    ensures { result ≡ option_and_then (slice_get values.now.items) index }
{
    match index {
        Some(index) => values.datum(index),
        None => None,
    }
}

/// The num at an index, if there is one.
pub(crate) fn num_at(values: &Words, index: Option<usize>) -> Option<Num>
    ensures { result ≡ option_and_then as_num (option_and_then (slice_get values.now.items) index) }
{
    match index {
        Some(index) => values.num(index),
        None => None,
    }
}

/// What the datum at an index stands for, if there is such a datum of a reference parameter.
pub(crate) fn place_at(values: &Words, index: Option<usize>) -> Option<Lvalue>
    ensures { result ≡ option_and_then place_in (option_and_then (slice_get values.now.items) index) }
{
    match index {
        Some(index) => values.place(index),
        None => None,
    }
}

/// Writes a datum at an index, if there is one. Does not allocate.
pub(crate) fn write_at(values: &mut Words, index: Option<usize>, datum: Held)
    requires { IfSome index (λ p. p < length values.old.items) }
    ensures items { values.new.items ≡ written index datum values.old.items }
    ensures room { values.new.room ≡ values.old.room }
{
    match index {
        Some(index) => values.set(index, datum),
        None => drop(datum),
    }
}

/// Writes a num at an index, if there is one. Does not allocate.
pub(crate) fn write_num_at(values: &mut Words, index: Option<usize>, number: Num)
    requires { IfSome index (λ p. p < length values.old.items) }
    ensures items { values.new.items ≡ written index (Plain (OfNum number)) values.old.items }
    ensures room { values.new.room ≡ values.old.room }
{
    if let Some(index) = index {
        values.set_num(index, number);
    }
}
