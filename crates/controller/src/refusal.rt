ghost use Rattle.std.specs.Prelude.{◌++◌, ◌≡◌, ◌≤◌, ◌∷◌, [], codes};
ghost use Rattle.controller.specs.RefusalLines.{refusal_text, key_words, place_words};
ghost use Rattle.sink_lines.specs.Printed.{sunk};
ghost use Rattle.sink_lines.specs.Written.{TakesLine, WritesLine};

use arrayvec::ArrayString;
use cell_loading::Refused;
use outside::{Failed, Sink};
use rapid_lexer::Place;
use sink_lines::write_line;
use value_text::push_count;

/// Prints a refusal on the second sink. A failed write there changes nothing else. `name` is the name of the file that
/// the refusal is about, if there is one. Takes no memory.
pub(crate) fn tell_refusal<E: Sink>(err: &mut E, name: &str, refused: &Refused)
    ensures faults { E.faults err.old ≤ E.faults err.new }
    ensures told { TakesLine (refusal_text name.now refused.now) (sunk E.told E.calls E.faults err.old err.new) }
{
    let _ = write_refusal(err, name, refused);
}

/// Writes the line of a refusal.
fn write_refusal<E: Sink>(err: &mut E, name: &str, refused: &Refused) -> Result<(), Failed>
    ensures { WritesLine (refusal_text name.now refused.now) result (sunk E.told E.calls E.faults err.old err.new) }
{
    let name = name.as_bytes();
    match refused {
        Refused::Words { place } => {
            let mut digits = ArrayString::<20>::new();
            push_count(*place, &mut digits);
            let text = digits.as_str().as_bytes();
            write_line(err, b"rapid_cell: words ", text, b"", b"")
        }
        Refused::Script { key, rule } => {
            let key = shown(key.bytes());
            write_line(err, b"rapid_cell: script ", key, b" ", rule.name())
        }
        Refused::Module { place, rule, .. } => {
            let mut words = ArrayString::new();
            push_place(place, &mut words);
            let at = words.as_str().as_bytes();
            write_line(err, b"rapid_cell: module ", name, at, rule.name())
        }
        Refused::Read { .. } => write_line(err, b"rapid_cell: read ", name, b"", b""),
        Refused::Write => write_line(err, b"rapid_cell: write", b"", b"", b""),
        Refused::Memory => write_line(err, b"rapid_cell: memory", b"", b"", b""),
        Refused::TooLong { .. } => write_line(err, b"rapid_cell: long ", name, b"", b""),
        Refused::History { line } => {
            let mut digits = ArrayString::<20>::new();
            push_count(*line as usize, &mut digits);
            let text = digits.as_str().as_bytes();
            write_line(err, b"rapid_cell: history ", text, b"", b"")
        }
    }
}

/// An empty key is printed as a minus.
fn shown(key: &[u8]) -> &[u8]
    ensures { result.now ≡ key_words key.now }
{
    if key.is_empty() { b"-" } else { key }
}

/// Where a module is refused, between spaces.
fn push_place(place: &Place, words: &mut ArrayString<128>)
    requires { words.old.bytes ≡ [] }
    ensures { words.new.bytes ≡ 32 ∷ place_words place.now ++ codes " " }
{
    words.push(' ');
    push_count(place.line as usize, words);
    words.push(':');
    push_count(place.column as usize, words);
    words.push(' ');
}
