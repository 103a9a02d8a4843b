ghost use Rattle.std.specs.Prelude.{◌<◌};

use typed_trees::Lvalue;

/// A set of the tasks that the elements of an array name, half done: the place of the array and its length, the number
/// of elements read before the one that was asked, and the set of the tasks that these name.
#[derive(Drop)]
pub struct Gathering {
    pub list: Lvalue,
    pub len: u16,
    pub read: u16,
    pub set: u16,
    ghost within: { read < len },
}
