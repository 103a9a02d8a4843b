ghost use Rattle.std.specs.Prelude.{pos, ◌*ℤ◌, ◌≤ℤ◌, ◌<ℤ◌};
ghost use Rattle.zone_clearance.specs.Levels.{IsEntry, IsEntryOf};

use crate::line::Line;
use crate::place::Place;
use crate::search::level::Level;

/// The first place at which a line is at most a level, or `None` if it nowhere is.
pub(crate) fn entry(line: Line, level: Level) -> Option<Place>
    ensures { IsEntryOf line level result }
{
    if level.is_at_least(line.start) {
        return Some(Place::start());
    }
    if !level.is_at_least(line.end) {
        return None;
    }
    Some(fall(line, level))
}

/// Where a line that starts above a level and does not end above it reaches it.
fn fall(line: Line, level: Level) -> Place
    requires start { pos level.top <ℤ (line.start *ℤ pos level.bottom) }
    requires end { (line.end *ℤ pos level.bottom) ≤ℤ pos level.top }
    ensures { IsEntry line level result }
{
    let top = line.start.unsigned_abs() * level.bottom - level.top;
    let bottom = line.start.abs_diff(line.end) * level.bottom;
    Place::new(top, bottom)
}
