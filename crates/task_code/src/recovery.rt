ghost use Rattle.std.specs.Prelude.{◌≡◌, ℕ, Some, option_map, slice_get};
ghost use Rattle.stack_code.specs.Placed.{own_of, owner_at};
ghost use Rattle.stack_code.specs.Raising.{handler_in};
ghost use Rattle.stack_code.specs.declared.owner.Owner.{Owner};
ghost use Rattle.task_code.specs.Owners.{Holds, IsNumberAt, StandsIn, resumed};

use crate::how::How;
use stack_code::{Marks, Owner};

/// The number of the owner of a place, by binary search.
fn number_at(owners: &[Owner], pc: u32) -> usize
    requires { StandsIn owners.now pc }
    ensures { IsNumberAt owners.now pc result }
{
    owners.partition_point(|owner| owner.past <= pc)
}

/// The owner of a place, which must lie in the code of the marks.
pub fn owner_of(marks: &Marks, pc: u32) -> &Owner
    requires { StandsIn marks.now.owners.items pc }
    ensures found { owner_at marks.now.owners.items pc ≡ Some result.now }
    ensures holds { Holds result.now pc }
{
    let number = number_at(&marks.owners, pc);
    &marks.owners[number]
}

/// The place where the statement that owns a place begins, or the place after it (RAPID Overview, error recovery). The
/// place must lie in the code of the marks.
pub fn resume_of(marks: &Marks, pc: u32, how: How) -> u32
    requires { StandsIn marks.now.owners.items pc }
    ensures held { (k : ℕ) (owner : Owner) → slice_get marks.now.owners.items k ≡ Some owner → Holds owner pc → result ≡ resumed how (own_of owner) }
    ensures named { option_map (λ owner. resumed how (own_of owner)) (owner_at marks.now.owners.items pc) ≡ Some result }
{
    let owner = owner_of(marks, pc);
    match how {
        How::Retry => owner.retry,
        How::Next => owner.next,
    }
}

/// The place of a routine's ERROR part: `None` exactly if it has none.
pub fn handler_of(marks: &Marks, routine: u32) -> Option<u32>
    ensures { result ≡ handler_in marks.now.handlers.items routine }
{
    match marks.handlers.get(routine as usize) {
        Some(handler) => *handler,
        None => None,
    }
}
