ghost use Rattle.std.specs.Prelude.{◌≡◌, IfOk};

use crate::held::Held;
use std::alloc::{AllocError, Global};
use typed_trees::Datum;

/// The first data of a task's modules, as a machine keeps them. Fails only if an allocation fails.
pub fn slots_of(alloc: Global, first_data: &[Datum]) -> Result<Vec<Held>, AllocError>
    ensures { IfOk result (λ slots. slots.items ≡ first_data.now) }
{
    let mut slots = Vec::with_capacity(alloc, first_data.len())?;
    for datum in first_data {
        slots.push(Held::of(datum))?;
    }
    Ok(slots)
}
