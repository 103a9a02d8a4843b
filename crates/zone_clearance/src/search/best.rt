ghost use Rattle.std.specs.Prelude.{◌<◌};
ghost use Rattle.zone_clearance.specs.declared.search.lines.TheConstants.{SIDES};

use crate::search::level::Level;
use crate::search::lines::SIDES;

/// A pair of lines, by their numbers, and the least level of the greater one.
#[derive(Clone, Copy, Debug)]
pub(crate) struct Best {
    pub(crate) level: Level,
    pub(crate) first: usize,
    pub(crate) second: usize,
    ghost known_first: { first < SIDES },
    ghost known_second: { second < SIDES },
}
