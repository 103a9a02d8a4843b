//! The lines of a gap.

ghost use Rattle.std.specs.Prelude.{◌≡◌, ◌≤◌, ◌<◌, ◌+◌, ◌^◌, ◌++◌, ◌∷◌, [], codes, length, nat_abs};
ghost use Rattle.zone_clearance.specs.Premises.{IsSmall};
ghost use Rattle.clearance_lines.specs.Clearances.{event_words, fraction_words, gap_line, nearest_line, second_words, side_words};
ghost use Rattle.clearance_lines.specs.Measured.{WritesOn};
ghost use Rattle.sink_lines.specs.Printed.{sunk};

use crate::nearest::Nearest;
use arrayvec::ArrayString;
use outside::{Failed, Sink};
use rapid_model::NameText;
use sink_lines::write_all;
use value_text::{push_count, push_name};
use zone_clearance::{Gap, Side};

/// Room for the line of a gap, in bytes: a name, the number of an event, four numbers and two sides.
const GAP_LINE_BYTES: usize = 256;

/// Prints the line of a gap, if all lines before it were printed.
pub(crate) fn print_gap<O: Sink>(
    out: &mut O,
    name: &NameText,
    segment: &Nearest,
    before: Result<(), Failed>,
) -> Result<(), Failed>
    requires { IsSmall segment.now.gap }
    ensures { WritesOn (gap_line name.now segment.now.event segment.now.gap ∷ []) before result (sunk O.told O.calls O.faults out.old out.new) }
{
    let mut line = ArrayString::new();
    push_distance("G ", name, segment, &mut line);
    push_point(&segment.gap, &mut line);
    write_on(out, line.as_str().as_bytes(), before)
}

/// Prints the line of the nearest segment, if all lines before it were printed.
pub(crate) fn print_nearest<O: Sink>(
    out: &mut O,
    name: &NameText,
    nearest: &Nearest,
    before: Result<(), Failed>,
) -> Result<(), Failed>
    requires { IsSmall nearest.now.gap }
    ensures { WritesOn (nearest_line name.now nearest.now.event nearest.now.gap ∷ []) before result (sunk O.told O.calls O.faults out.old out.new) }
{
    let mut line = ArrayString::new();
    push_distance("C ", name, nearest, &mut line);
    line.push('\n');
    write_on(out, line.as_str().as_bytes(), before)
}

/// Appends what both lines begin with.
fn push_distance(
    head: &'static str,
    name: &NameText,
    segment: &Nearest,
    line: &mut ArrayString<GAP_LINE_BYTES>,
)
    requires head { length head.now ≤ 2 }
    requires empty { line.old.bytes ≡ [] }
    requires small { IsSmall segment.now.gap }
    ensures text { line.new.bytes ≡ head.now ++ (name.now ++ (32 ∷ event_words segment.now.event ++ (32 ∷ fraction_words segment.now.gap.top segment.now.gap.bottom))) }
    ensures short { length line.new.bytes ≤ 100 }
{
    line.push_str(head);
    push_name(name, line);
    line.push(' ');
    push_event(segment.event, line);
    line.push(' ');
    push_fraction(segment.gap.top, segment.gap.bottom, line);
}

/// Appends the fraction of the way, the sides that prove the gap, and the end of the line.
fn push_point(gap: &Gap, line: &mut ArrayString<GAP_LINE_BYTES>)
    requires room { length line.old.bytes ≤ 100 }
    requires at_top { nat_abs gap.now.at_top < 2 ^ 60 }
    requires at_bottom { nat_abs gap.now.at_bottom < 2 ^ 60 }
    ensures text { line.new.bytes ≡ line.old.bytes ++ (32 ∷ fraction_words gap.now.at_top gap.now.at_bottom ++ (32 ∷ side_words gap.now.first ++ (32 ∷ second_words gap.now.second ++ codes "\n"))) }
{
    line.push(' ');
    push_fraction(gap.at_top, gap.at_bottom, line);
    line.push(' ');
    push_side(gap.first, line);
    line.push(' ');
    push_second(gap.second, line);
    line.push('\n');
}

/// Appends the number of an event, or that there is none.
fn push_event(event: Option<u32>, line: &mut ArrayString<GAP_LINE_BYTES>)
    requires { length line.old.bytes ≤ 35 }
    ensures text { line.new.bytes ≡ line.old.bytes ++ event_words event }
    ensures short { length line.new.bytes ≤ length line.old.bytes + 20 }
{
    match event {
        Some(number) => push_count(number as usize, line),
        None => line.push_str("start"),
    }
}

/// Appends a fraction, whose numbers are not negative.
fn push_fraction(top: i128, bottom: i128, line: &mut ArrayString<GAP_LINE_BYTES>)
    requires room { length line.old.bytes ≤ 110 }
    requires top { nat_abs top < 2 ^ 60 }
    requires bottom { nat_abs bottom < 2 ^ 60 }
    ensures text { line.new.bytes ≡ line.old.bytes ++ fraction_words top bottom }
    ensures short { length line.new.bytes ≤ length line.old.bytes + 41 }
{
    push_count(top.unsigned_abs() as usize, line);
    line.push('/');
    push_count(bottom.unsigned_abs() as usize, line);
}

/// Appends the name of a side: `zero`, or the axis and its bound.
fn push_side(side: Side, line: &mut ArrayString<GAP_LINE_BYTES>)
    requires { length line.old.bytes ≤ 200 }
    ensures text { line.new.bytes ≡ line.old.bytes ++ side_words side }
    ensures short { length line.new.bytes ≤ length line.old.bytes + 24 }
{
    match side {
        Side::Zero => line.push_str("zero"),
        Side::Low(axis) => {
            push_count(usize::from(axis), line);
            line.push_str("low");
        }
        Side::High(axis) => {
            push_count(usize::from(axis), line);
            line.push_str("high");
        }
    }
}

/// Appends the name of a second side, or a minus.
fn push_second(second: Option<Side>, line: &mut ArrayString<GAP_LINE_BYTES>)
    requires { length line.old.bytes ≤ 200 }
    ensures text { line.new.bytes ≡ line.old.bytes ++ second_words second }
    ensures short { length line.new.bytes ≤ length line.old.bytes + 24 }
{
    match second {
        Some(side) => push_side(side, line),
        None => line.push('-'),
    }
}

/// Writes a line, if all lines before it were written.
fn write_on<O: Sink>(out: &mut O, line: &[u8], before: Result<(), Failed>) -> Result<(), Failed>
    ensures { WritesOn (line.now ∷ []) before result (sunk O.told O.calls O.faults out.old out.new) }
{
    before?;
    write_all(out, line)
}
