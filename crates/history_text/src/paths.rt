//! Persistents and their parts.

ghost use Rattle.std.specs.Prelude.{◌≡◌, ◌+◌, ◌≤◌, ◌++◌, length};
ghost use Rattle.history_text.specs.EventWords.{element_words, path_words, pers_words};

use crate::rooms::{ELEMENT_BYTES, LINE_BYTES, PATH_BYTES, PERS_BYTES};
use arrayvec::ArrayString;
use rapid_model::Path;
use value_text::{part_name, push_count};

/// Appends a persistent of the cell: P and its number.
pub(crate) fn push_pers(pers: u32, line: &mut ArrayString<LINE_BYTES>)
    requires room { length line.old.bytes + PERS_BYTES ≤ LINE_BYTES }
    ensures text { line.new.bytes ≡ line.old.bytes ++ pers_words pers }
    ensures short { length line.new.bytes ≤ length line.old.bytes + PERS_BYTES }
{
    line.push('P');
    push_count(pers as usize, line);
}

/// Appends the element of an array, from 1, in braces, or nothing for the whole.
fn push_element(index: u16, line: &mut ArrayString<LINE_BYTES>)
    requires room { length line.old.bytes + ELEMENT_BYTES ≤ LINE_BYTES }
    ensures text { line.new.bytes ≡ line.old.bytes ++ element_words index }
    ensures short { length line.new.bytes ≤ length line.old.bytes + ELEMENT_BYTES }
{
    if index == 0 {
        return;
    }
    line.push('{');
    push_count(usize::from(index), line);
    line.push('}');
}

/// Appends a part of a persistent.
pub(crate) fn push_path(pers: u32, path: Path, line: &mut ArrayString<LINE_BYTES>)
    requires room { length line.old.bytes + PATH_BYTES ≤ LINE_BYTES }
    ensures text { line.new.bytes ≡ line.old.bytes ++ path_words pers path }
    ensures short { length line.new.bytes ≤ length line.old.bytes + PATH_BYTES }
{
    push_pers(pers, line);
    push_element(path.index, line);
    line.push_str(part_name(path.part));
}
