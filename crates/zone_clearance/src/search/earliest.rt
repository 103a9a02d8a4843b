//! The first place at which some line is at most a level: the earliest entry of a line.

ghost use Rattle.std.specs.Prelude.{◌<◌, ◌*◌, ◌↔◌, IsTrue, IfSome};
ghost use Rattle.zone_clearance.specs.Arrivals.{IsArrival};

use crate::line::Line;
use crate::place::Place;
use crate::search::arrival::Arrival;
use crate::search::entry::entry;
use crate::search::level::Level;
use crate::search::lines::SIDES;

/// The first place at which some line is at most the level, or `None` if none ever is.
pub(crate) fn earliest_entry(lines: &[Option<Line>; SIDES], level: Level) -> Option<Arrival>
    ensures { IsArrival lines.now level SIDES result }
{
    let mut arrival = None;
    for number in 0..SIDES {
        if let Some(line) = lines[number] {
            if let Some(place) = entry(line, level) {
                if is_earlier(place, arrival) {
                    arrival = Some(Arrival { place, number });
                }
            }
        }
    }
    arrival
}

/// Whether a place is before that of an arrival; any place is, if there is none.
fn is_earlier(place: Place, arrival: Option<Arrival>) -> bool
    ensures { IsTrue result
        ↔ IfSome arrival (λ first. place.top * first.place.bottom < first.place.top * place.bottom) }
{
    match arrival {
        Some(first) => place.is_before(first.place),
        None => true,
    }
}
