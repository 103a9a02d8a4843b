//! Elements of constant arrays (RAPID Overview, arrays).

ghost use Rattle.std.specs.Prelude.{◌≡◌, length, map, slice_get, option_map};
ghost use Rattle.rapid_values.specs.Elements.{element_number};
ghost use Rattle.constant_meaning.specs.Constants.{array_of, element_at, element_part, elements_of, flat, items_of};
ghost use Rattle.constant_meaning.specs.declared.outcome.Outcome.TheVariants as outcomes;

use crate::arrays::Arrays;
use crate::operands::value_or_not_known;
use crate::outcome::Outcome;
use rapid_model::{PartName, Value};
use rapid_num::Num;
use rapid_values::{element_number, part};
use typed_trees::TreeRoot;

/// The elements of the constant array that a root names: None exactly if it does not name one with known elements.
pub(crate) fn array_of<'a>(arrays: &Arrays<'a>, root: TreeRoot) -> Option<&'a Vec<Value>>
    ensures { option_map (λ v. v.now.items) result ≡ array_of (elements_of arrays.now) root }
{
    match root {
        TreeRoot::Slot(number) => array_at(arrays.slots, number),
        TreeRoot::Local(number) => array_at(arrays.locals, number),
        TreeRoot::Ref(_) | TreeRoot::Pers(_) => None,
    }
}

/// The elements of the array with this number, from 0, if they are known.
fn array_at(arrays: &[Option<Vec<Value>>], number: u32) -> Option<&Vec<Value>>
    ensures { option_map (λ v. v.now.items) result ≡ flat (slice_get (map items_of arrays.now) number) }
{
    arrays.get(number as usize)?.as_ref()
}

/// A part of an array element, given the outcome of its index. Indices count from 1.
pub(crate) fn element_at(elements: &[Value], part: PartName, index: Outcome) -> Outcome
    ensures { result ≡ element_at (Some elements.now) part index }
{
    match index {
        Outcome::Value(value) => element_by(elements, part, &value),
        other => other,
    }
}

/// A part of an array element, given the value of its index.
fn element_by(elements: &[Value], part: PartName, index: &Value) -> Outcome
    ensures { result ≡ element_at (Some elements.now) part (outcomes.Value index.now) }
{
    match index {
        Value::Num(number) => element_part(elements, part, *number),
        _ => Outcome::NotKnown,
    }
}

/// A part of the element that a num names.
fn element_part(elements: &[Value], name: PartName, number: Num) -> Outcome
    ensures { result ≡ element_part elements.now name (element_number (length elements.now) number) }
{
    let Some(number) = element_number(elements.len(), number) else {
        return Outcome::OutOfArray;
    };
    let Some(element) = elements.get(number - 1) else {
        return Outcome::NotKnown;
    };
    value_or_not_known(part(element, name))
}
