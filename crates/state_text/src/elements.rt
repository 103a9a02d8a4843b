ghost use Rattle.std.specs.Prelude.{◌≡◌, ◌<◌, ◌+◌, ◌^◌};
ghost use Rattle.state_text.specs.StateLines.{element_of};

/// The number of an element of an array, from 1, given its index and the array's length; none for what is no array.
pub fn element_of(len: Option<u16>, index: usize) -> Option<usize>
    requires { index + 1 < 2 ^ 64 }
    ensures { result ≡ element_of len index }
{
    match len {
        None => None,
        Some(_) => Some(index + 1),
    }
}
