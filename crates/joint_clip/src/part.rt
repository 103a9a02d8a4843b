ghost use Rattle.std.specs.Prelude.{◌≤◌, ◌*◌};

use crate::fraction::Fraction;

/// A non-empty part of a segment: everything between two fractions of the way, both included.
#[derive(Clone, Copy, Debug)]
pub(crate) struct Part {
    pub(crate) first: Fraction,
    pub(crate) last: Fraction,
    ghost ordered: { first.top * last.bottom ≤ last.top * first.bottom },
}
