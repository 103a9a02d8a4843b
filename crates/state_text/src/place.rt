//! Places of statements.

ghost use Rattle.std.specs.Prelude.{◌≡◌, ◌+◌, ◌*◌, ◌<◌, ◌≤◌, ◌^◌, ◌++◌, [], All, length, slice_index_or};
ghost use Rattle.state_text.specs.Seen.{view_sources};
ghost use Rattle.state_text.specs.StateLines.{place_text, spot_text};

use crate::rooms::{LINE_BYTES, PLACE_BYTES};
use crate::sources::Sources;
use arrayvec::ArrayString;
use rapid_lexer::place_of;
use rapid_limits::LONGEST_FILE_NAME;
use rapid_model::At;
use value_text::{COUNT_BYTES, push_count};

/// Appends the file, the line and the column of a place, or `- -` without one.
pub(crate) fn push_place(
    sources: &Sources<'_>,
    place: Option<At>,
    line: &mut ArrayString<LINE_BYTES>,
)
    requires names { All (λ file. length file ≤ LONGEST_FILE_NAME) sources.now.files.now }
    requires texts { All (λ text. length text.items < 2 ^ 31) sources.now.texts.now }
    requires room { length line.old.bytes + PLACE_BYTES ≤ LINE_BYTES }
    ensures text { line.new.bytes ≡ line.old.bytes ++ place_text (view_sources sources.now) place }
    ensures short { length line.new.bytes ≤ length line.old.bytes + PLACE_BYTES }
{
    match place {
        None => line.push_str("- -"),
        Some(at) => {
            let number = at.module as usize;
            push_file(sources, number, line);
            line.push(' ');
            push_spot(text_at(sources, number), at.byte as usize, line);
        }
    }
}

/// Appends the name of the file of a module, by its number from 0.
fn push_file(sources: &Sources<'_>, number: usize, line: &mut ArrayString<LINE_BYTES>)
    requires names { All (λ file. length file ≤ LONGEST_FILE_NAME) sources.now.files.now }
    requires room { length line.old.bytes + LONGEST_FILE_NAME ≤ LINE_BYTES }
    ensures text { line.new.bytes ≡ line.old.bytes ++ slice_index_or sources.now.files.now number [] }
    ensures short { length line.new.bytes ≤ length line.old.bytes + LONGEST_FILE_NAME }
{
    if let Some(file) = sources.files.get(number) {
        line.push_str(file.as_str());
    }
}

/// The text of a module, by its number from 0.
fn text_at<'a>(sources: &Sources<'a>, number: usize) -> &'a [u8]
    requires { All (λ text. length text.items < 2 ^ 31) sources.now.texts.now }
    ensures text { result.now ≡ slice_index_or (view_sources sources.now).texts number [] }
    ensures few { length result.now < 2 ^ 31 }
{
    match sources.texts.get(number) {
        Some(text) => text.as_slice(),
        None => &[],
    }
}

/// Appends the line and the column of a byte of a text.
fn push_spot(text: &[u8], byte: usize, line: &mut ArrayString<LINE_BYTES>)
    requires few { length text.now < 2 ^ 31 }
    requires room { length line.old.bytes + 2 * COUNT_BYTES + 1 ≤ LINE_BYTES }
    ensures text { line.new.bytes ≡ line.old.bytes ++ spot_text text.now byte }
    ensures short { length line.new.bytes ≤ length line.old.bytes + 2 * COUNT_BYTES + 1 }
{
    let place = place_of(text, byte.min(text.len()));
    push_count(place.line as usize, line);
    line.push(':');
    push_count(place.column as usize, line);
}
