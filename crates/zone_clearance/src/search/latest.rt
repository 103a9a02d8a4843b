//! The first place at which every line is at most a level: the latest entry of a line.

ghost use Rattle.zone_clearance.specs.Arrivals.{AllMeet, IsFirstAllUnder};

use crate::line::Line;
use crate::place::Place;
use crate::search::entry::entry;
use crate::search::level::Level;
use crate::search::lines::SIDES;

/// The first place at which every line is at most the level. Any two lines are at most the level at some common place.
pub(crate) fn latest_entry(lines: &[Option<Line>; SIDES], level: Level) -> Place
    requires { AllMeet lines.now level }
    ensures { IsFirstAllUnder lines.now level result }
{
    let mut place = Place::start();
    for number in 0..SIDES {
        if let Some(line) = lines[number] {
            if let Some(entry) = entry(line, level) {
                if place.is_before(entry) {
                    place = entry;
                }
            }
        }
    }
    place
}
