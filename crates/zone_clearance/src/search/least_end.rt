ghost use Rattle.zone_clearance.specs.Arrivals.{IsLeastEnd};

use crate::line::Line;
use crate::search::level::Level;
use crate::search::lines::SIDES;
use rapid_limits::EXTERNAL_REACH;

/// The least value of a line at an end of the segment, or 0 if that is negative.
pub(crate) fn least_end(lines: &[Option<Line>; SIDES]) -> Level
    ensures { IsLeastEnd lines.now result }
{
    let mut least = 2 * EXTERNAL_REACH as i64;
    for number in 0..SIDES {
        if let Some(line) = lines[number] {
            least = least.min(line.start.min(line.end));
        }
    }
    Level::whole(least.max(0))
}
