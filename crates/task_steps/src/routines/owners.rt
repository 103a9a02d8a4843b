//! Numbers of the owners of operations, so that no owner is searched.

ghost use Rattle.std.specs.Prelude.{◌-◌, IfOk};
ghost use Rattle.task_code.specs.Owners.{IsNumberAt, StandsIn, Tiles};
ghost use Rattle.task_steps.specs.Loading.{NamesOwners};

use stack_code::Owner;
use std::alloc::{AllocError, Global};

/// The number of the owner of a place, from that of the place before it; at the first place, from that of the first
/// owner.
fn number_from(owners: &[Owner], number: u32, pc: u32) -> u32
    requires stands { StandsIn owners.now pc }
    requires before { IsNumberAt owners.now (pc - 1) number }
    ensures { IsNumberAt owners.now pc result }
{
    if owners[number as usize].past <= pc {
        number + 1
    } else {
        number
    }
}

/// For each of `count` operations the number of its owner, from 0. Takes time proportional to their number. Fails only
/// if an allocation fails.
pub(crate) fn owner_numbers(
    alloc: Global,
    owners: &[Owner],
    count: u32,
) -> Result<Vec<u32>, AllocError>
    requires { Tiles 0 count owners.now }
    ensures { IfOk result (λ numbers. NamesOwners owners.now count numbers.items) }
{
    let mut numbers = Vec::with_capacity(alloc, count as usize)?;
    let mut number = 0;
    for pc in 0..count {
        number = number_from(owners, number, pc);
        numbers.push(number)?;
    }
    Ok(numbers)
}
