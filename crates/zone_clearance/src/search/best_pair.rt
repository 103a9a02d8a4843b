//! The pair of lines of which the greater one stays highest.

ghost use Rattle.std.specs.Prelude.{◌+◌, ◌<◌, ◌↔◌, IsTrue};
ghost use Rattle.zone_clearance.specs.Levels.{HasLine, StaysUnder};
ghost use Rattle.zone_clearance.specs.Pairs.{IsBest, IsBestBefore, IsZero};

use crate::line::Line;
use crate::search::best::Best;
use crate::search::level::Level;
use crate::search::lines::SIDES;
use crate::search::raised::raised;

/// The first pair with the greatest level, which is at least 0: line 0 is 0 all the way.
pub(crate) fn best_pair(lines: &[Option<Line>; SIDES]) -> Best
    requires zero { IsZero lines.now }
    ensures { IsBest lines.now result }
{
    let mut best = Best {
        level: Level::whole(0),
        first: 0,
        second: 0,
    };
    for first in 0..SIDES {
        if let Some(line) = lines[first] {
            // Each line meets the level with line 0, and so with a line that is nowhere above it.
            if first == 0 || !stays_under(line, best.level) {
                best = best_with(lines, first, line, best);
            }
        }
    }
    best
}

/// Whether a line is nowhere above a level.
fn stays_under(line: Line, level: Level) -> bool
    ensures { IsTrue result ↔ StaysUnder line level }
{
    level.is_at_least(line.start.max(line.end))
}

/// The best one of the pairs before, and of those of line `first` with itself or a later one.
fn best_with(lines: &[Option<Line>; SIDES], first: usize, line: Line, before: Best) -> Best
    requires known { first < SIDES }
    requires line { HasLine lines.now first line }
    requires before { IsBestBefore lines.now before first first }
    ensures { IsBestBefore lines.now result (first + 1) (first + 1) }
{
    let mut best = before;
    for second in first..SIDES {
        if let Some(other) = lines[second] {
            if let Some(level) = raised(line, other, best.level) {
                best = Best {
                    level,
                    first,
                    second,
                };
            }
        }
    }
    best
}
