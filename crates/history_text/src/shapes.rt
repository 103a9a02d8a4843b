//! Shapes, and zones to be made.

ghost use Rattle.std.specs.Prelude.{◌≡◌, ◌+◌, ◌≤◌, ◌∷◌, [], ◌++◌, length, flat_map};
ghost use Rattle.history_text.specs.EventWords.{bound_words, kind_words, shape_words, side_words, zone_words};

use crate::rooms::{BOUND_BYTES, BOUNDS_BYTES, LINE_BYTES, SHAPE_BYTES, SIDE_BYTES, ZONE_BYTES};
use arrayvec::ArrayString;
use rapid_limits::MOST_AXES;
use rapid_num::{Bound, Shape};
use value_text::{push_count, push_num};

/// Writes the words of a shape: Inside or Outside, and then `low:high` or `-` for each of twelve axes. Takes no memory.
pub fn shape_words(shape: &Shape, line: &mut ArrayString<LINE_BYTES>)
    requires empty { line.old.bytes ≡ [] }
    ensures { line.new.bytes ≡ shape_words shape.now }
{
    push_shape(shape, line);
}

/// Appends the words of a shape.
pub(crate) fn push_shape(shape: &Shape, line: &mut ArrayString<LINE_BYTES>)
    requires room { length line.old.bytes + SHAPE_BYTES ≤ LINE_BYTES }
    ensures text { line.new.bytes ≡ line.old.bytes ++ shape_words shape.now }
    ensures short { length line.new.bytes ≤ length line.old.bytes + SHAPE_BYTES }
{
    line.push_str(side_name(shape.inside));
    push_bounds(&shape.bounds, line);
}

fn side_name(inside: bool) -> &'static str
    ensures name { result.now ≡ side_words inside }
    ensures short { length result.now ≤ SIDE_BYTES }
{
    if inside { "Inside" } else { "Outside" }
}

/// Appends the bounds of twelve axes, each after a space.
fn push_bounds(bounds: &[Option<Bound>], line: &mut ArrayString<LINE_BYTES>)
    requires count { length bounds.now ≤ MOST_AXES }
    requires room { length line.old.bytes + BOUNDS_BYTES ≤ LINE_BYTES }
    ensures text { line.new.bytes ≡ line.old.bytes ++ flat_map (λ b. 32 ∷ bound_words b) bounds.now }
    ensures short { length line.new.bytes ≤ length line.old.bytes + BOUNDS_BYTES }
{
    for bound in bounds {
        push_bound(bound, line);
    }
}

/// Appends a space and the bounds of an axis.
fn push_bound(bound: &Option<Bound>, line: &mut ArrayString<LINE_BYTES>)
    requires room { length line.old.bytes + BOUND_BYTES ≤ LINE_BYTES }
    ensures text { line.new.bytes ≡ line.old.bytes ++ 32 ∷ bound_words bound.now }
    ensures short { length line.new.bytes ≤ length line.old.bytes + BOUND_BYTES }
{
    line.push(' ');
    match bound {
        None => line.push('-'),
        Some(bound) => {
            push_num(bound.low, line);
            line.push(':');
            push_num(bound.high, line);
        }
    }
}

/// Appends a zone to be made: the zone that the variable names, the kind, and the shape.
pub(crate) fn push_zone(old: u8, temporary: bool, shape: &Shape, line: &mut ArrayString<LINE_BYTES>)
    requires room { length line.old.bytes + ZONE_BYTES ≤ LINE_BYTES }
    ensures text { line.new.bytes ≡ line.old.bytes ++ zone_words old temporary shape.now }
    ensures short { length line.new.bytes ≤ length line.old.bytes + ZONE_BYTES }
{
    push_count(usize::from(old), line);
    line.push(' ');
    line.push_str(kind_name(temporary));
    line.push(' ');
    push_shape(shape, line);
}

fn kind_name(temporary: bool) -> &'static str
    ensures name { result.now ≡ kind_words temporary }
    ensures short { length result.now ≤ 4 }
{
    if temporary { "Temp" } else { "Stat" }
}
