ghost use Rattle.std.specs.Prelude.{◌≡◌, ◌<◌, is_none, IfSome};
ghost use Rattle.std.specs.List.{position_from};
ghost use Rattle.trap_dispatch.specs.Firing.{connected_at};

use crate::order::Order;
use rapid_limits::MOST_INTERRUPTS;

/// A connected interrupt number: its trap, by routine number within its task, its order, and whether it sleeps
/// (RAPID Instructions: CONNECT, ISleep, IWatch).
#[derive(Clone, Copy, Debug, PartialEq, Eq)]
pub struct Connected {
    pub trap: u32,
    pub order: Option<Order>,
    pub asleep: bool,
}

/// What the number is connected with; numbers are 1 to 64, and no other number is connected.
pub(crate) fn connected_at(
    numbers: &[Option<Connected>; MOST_INTERRUPTS],
    number: u8,
) -> Option<Connected>
    ensures { result ≡ connected_at numbers.now number }
{
    if number == 0 || number as usize > MOST_INTERRUPTS {
        return None;
    }
    numbers[number as usize - 1]
}

/// The index of the first free number.
pub(crate) fn free_index(numbers: &[Option<Connected>; MOST_INTERRUPTS]) -> Option<usize>
    ensures there { IfSome result (λ index. index < MOST_INTERRUPTS) }
    ensures first { result ≡ position_from is_none 0 numbers.now }
{
    numbers.iter().position(|entry| entry.is_none())
}
