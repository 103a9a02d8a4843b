//! Operations that push without operands, and operations that jump.
#![tactic(auto, unfolding(rapid_meaning::specs::Doings::after))]

ghost use Rattle.std.specs.Prelude.{◌≡◌, Some};
ghost use Rattle.rapid_model.specs.declared.fate.Fate.TheVariants as fates;
ghost use Rattle.rapid_model.specs.declared.part_name.PartName.{PartName};
ghost use Rattle.typed_trees.specs.declared.datum.Datum.TheVariants.{Place, Plain};
ghost use Rattle.typed_trees.specs.declared.datum.Lvalue.{Lvalue};
ghost use Rattle.rapid_meaning.specs.Places.{at_root, part_at, part_within};
ghost use Rattle.rapid_meaning.specs.Values as meant;
ghost use Rattle.stack_code.specs.Functions.{of_value, of_values};
ghost use Rattle.stack_code.specs.Steps.{Here, act, pushes};
ghost use Rattle.stack_code.specs.declared.op.Op.TheVariants as ops;
ghost use Rattle.task_steps.specs.Doing.{came};
ghost use Rattle.task_steps.specs.declared.steps.done.Done.TheVariants as dones;

use crate::steps::done::Done;
use function_values::{value_of, value_of_two};
use machine_stacks::Held;
use rapid_model::{Fate, Fault, Function, PartName, Value};
use rapid_num::Num;
use typed_trees::{Lvalue, Root};

/// Pushes the place of a persistent.
pub(crate) fn pers_place(pers: u32) -> Option<Done>
    ensures { (h : Here) → act h (ops.Pers pers) ≡ came h result }
{
    place_pushed(whole_at(Root::Pers { pers, index: 0 }))
}

/// The place of all that begins at a root.
pub(crate) fn whole_at(root: Root) -> Lvalue
    ensures { result ≡ at_root root }
{
    Lvalue {
        root,
        part: PartName::Whole,
    }
}

/// Pushes a place.
pub(crate) fn place_pushed(place: Lvalue) -> Option<Done>
    ensures { result ≡ Some (dones.Push (Place place)) }
{
    Some(Done::Push(Held::of_place(place)))
}

/// The fault of a function that ends without RETURN.
pub(crate) fn not_returned() -> Option<Done>
    ensures { (h : Here) → act h ops.NoBack ≡ came h result }
{
    Some(Done::End(Fate::Fault(Fault::NoReturn)))
}

/// EXIT.
pub(crate) fn exited() -> Option<Done>
    ensures { (h : Here) → act h ops.Exit ≡ came h result }
{
    Some(Done::End(Fate::Exit))
}

/// A count as a num.
pub(crate) fn whole(count: u16) -> Value
    ensures { result ≡ meant.whole count }
{
    match Num::new(i64::from(count) * 1000) {
        Some(number) => Value::Num(number),
        None => unreachable!(),
    }
}

/// Narrows a place to a part.
pub(crate) fn narrowed(name: PartName, place: Lvalue) -> Option<Done>
    ensures { (h : Here) → pushes h h.conf.stack Place (part_at name place) ≡ came h result }
{
    let part = part_within(place.part, name)?;
    place_pushed(Lvalue {
        root: place.root,
        part,
    })
}

/// The part of a part; axes are numbered over both joints.
fn part_within(outer: PartName, inner: PartName) -> Option<PartName>
    ensures { result ≡ part_within outer inner }
{
    match (outer, inner) {
        (PartName::Whole, _) => Some(inner),
        (_, PartName::Whole) => Some(outer),
        (PartName::Robax, PartName::Axis(_)) => Some(inner),
        (PartName::Extax, PartName::Axis(_)) => Some(inner),
        _ => None,
    }
}

/// A predefined function of one value.
pub(crate) fn of_one(function: Function, value: &Value) -> Option<Done>
    ensures { (h : Here) → pushes h h.conf.stack Plain (of_value function value.now) ≡ came h result }
{
    let value = value_of(function, value)?;
    Some(Done::value(value))
}

/// A predefined function of two values.
pub(crate) fn of_two(function: Function, first: &Value, second: &Value) -> Option<Done>
    ensures { (h : Here) → pushes h h.conf.stack Plain (of_values function first.now second.now) ≡ came h result }
{
    let value = value_of_two(function, first, second)?;
    Some(Done::value(value))
}
