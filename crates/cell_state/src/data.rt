//! The data of a task's modules.

ghost use Rattle.std.specs.Prelude.{◌≡◌, IfOk};

use machine_stacks::Held;
use std::alloc::{AllocError, Global};
use task_machine::Machine;
use typed_trees::{BoxedShape, Datum};

/// The data of a machine's modules, numbered as in its code. Fails only if an allocation fails.
pub(crate) fn values_of(alloc: Global, machine: &Machine) -> Result<Vec<Datum>, AllocError>
    ensures { IfOk result (λ values. values.items ≡ machine.now.data'.slots) }
{
    let mut values = Vec::new(alloc);
    for slot in 0..machine.slots() {
        let datum = datum_of(alloc, machine.datum(slot))?;
        values.push(datum)?;
    }
    Ok(values)
}

/// A datum that a machine keeps, its shape in a box. Fails only if an allocation fails.
fn datum_of(alloc: Global, held: &Held) -> Result<Datum, AllocError>
    ensures { IfOk result (λ datum. datum ≡ held.now) }
{
    if let Some(value) = held.value() {
        return Ok(Datum::Plain(value.copy()));
    }
    if let Some(number) = held.mark() {
        return Ok(Datum::Mark(number));
    }
    match (held.shape(), held.place()) {
        (Some(Some(shape)), _) => Ok(Datum::Shape(Some(BoxedShape::new(alloc, shape)?))),
        (Some(None), _) => Ok(Datum::Shape(None)),
        (None, Some(place)) => Ok(Datum::Place(place)),
        (None, None) => unreachable!(),
    }
}
