ghost use Rattle.std.specs.Prelude.{◌≤◌, ◌<◌, ◌^◌};

use crate::place::Place;

/// The numbers of a gap that is well written: both fractions in lowest terms, the place on the way.
#[derive(Clone, Copy, Debug)]
pub(crate) struct Claim {
    pub(crate) top: u64,
    pub(crate) bottom: u64,
    pub(crate) place: Place,
    ghost some: { 1 ≤ bottom },
    ghost small_top: { top < 2 ^ 60 },
    ghost small_bottom: { bottom < 2 ^ 60 },
}
