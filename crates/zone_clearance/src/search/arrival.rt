ghost use Rattle.std.specs.Prelude.{◌<◌};
ghost use Rattle.zone_clearance.specs.declared.search.lines.TheConstants.{SIDES};

use crate::place::Place;
use crate::search::lines::SIDES;

/// A place, and the number of the first line that is at most a level there.
#[derive(Clone, Copy, Debug)]
pub(crate) struct Arrival {
    pub(crate) place: Place,
    pub(crate) number: usize,
    ghost known: { number < SIDES },
}
