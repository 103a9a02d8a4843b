//! The names of parts of values.

ghost use Rattle.std.specs.Prelude.{◌≡◌, ◌≤◌, length};
ghost use Rattle.value_text.specs.ValueText.{axis_text, part_text, speed_text};

use crate::rooms::WORD_BYTES;
use rapid_model::PartName;

/// A part as written after a datum: each component after a dot, and nothing for the whole. The text of an axis does not
/// depend on the type of the datum (RAPID Instructions, Functions and Data types: robjoint, extjoint, jointtarget,
/// speeddata, tasks). At most 12 bytes.
pub fn part_name(part: PartName) -> &'static str
    ensures name { result.now ≡ part_text part }
    ensures short { length result.now ≤ WORD_BYTES }
{
    match part {
        PartName::Whole => "",
        PartName::Robax => ".robax",
        PartName::Extax => ".extax",
        PartName::Axis(number) => axis_name(number),
        PartName::SpeedPart(number) => speed_name(number),
        PartName::Taskname => ".taskname",
    }
}

/// An axis, numbered from 0.
fn axis_name(number: u8) -> &'static str
    ensures name { result.now ≡ axis_text number }
    ensures short { length result.now ≤ WORD_BYTES }
{
    match number {
        0 => ".robax.rax_1",
        1 => ".robax.rax_2",
        2 => ".robax.rax_3",
        3 => ".robax.rax_4",
        4 => ".robax.rax_5",
        5 => ".robax.rax_6",
        6 => ".extax.eax_a",
        7 => ".extax.eax_b",
        8 => ".extax.eax_c",
        9 => ".extax.eax_d",
        10 => ".extax.eax_e",
        11 => ".extax.eax_f",
        _ => "",
    }
}

/// A part of a speed, numbered from 0.
fn speed_name(number: u8) -> &'static str
    ensures name { result.now ≡ speed_text number }
    ensures short { length result.now ≤ WORD_BYTES }
{
    match number {
        0 => ".v_tcp",
        1 => ".v_ori",
        2 => ".v_leax",
        3 => ".v_reax",
        _ => "",
    }
}
