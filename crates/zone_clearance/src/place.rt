ghost use Rattle.std.specs.Prelude.{◌≡◌, ◌≤◌, ◌<◌, ◌*◌, ◌^◌, ◌↔◌, IsTrue};

use crate::product::product;

/// A fraction of the way along a segment, from 0 to 1.
#[derive(Clone, Copy, Debug)]
pub(crate) struct Place {
    pub(crate) top: u64,
    pub(crate) bottom: u64,
    ghost some: { 1 ≤ bottom },
    ghost on_the_way: { top ≤ bottom },
    ghost small: { bottom < 2 ^ 60 },
}

impl Place {
    /// The fraction `top / bottom`.
    pub(crate) fn new(top: u64, bottom: u64) -> Place
        requires some { 1 ≤ bottom }
        requires on_the_way { top ≤ bottom }
        requires small { bottom < 2 ^ 60 }
        ensures top { result.top ≡ top }
        ensures bottom { result.bottom ≡ bottom }
    {
        Place { top, bottom }
    }

    /// The start of the segment.
    pub(crate) fn start() -> Place
        ensures top { result.top ≡ 0 }
        ensures bottom { result.bottom ≡ 1 }
    {
        Place { top: 0, bottom: 1 }
    }

    /// The end of the segment.
    pub(crate) fn end() -> Place
        ensures top { result.top ≡ 1 }
        ensures bottom { result.bottom ≡ 1 }
    {
        Place { top: 1, bottom: 1 }
    }

    /// Whether it is earlier on the way than another place.
    pub(crate) fn is_before(self, other: Place) -> bool
        ensures { IsTrue result ↔ (self.top * other.bottom < other.top * self.bottom) }
    {
        product(self.top, other.bottom) < product(other.top, self.bottom)
    }
}
