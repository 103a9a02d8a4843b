ghost use Rattle.std.specs.Prelude.{◌≡◌, []};
ghost use Rattle.value_text.specs.ValueText.{value_text};

use crate::rooms::LINE_BYTES;
use arrayvec::ArrayString;
use rapid_model::Value;
use value_text::push_value;

/// Writes a value as RAPID writes it, without spaces: a num without unnecessary digits, TRUE, FALSE, a text in quotes
/// with each quote and backslash doubled, or a list in brackets. Takes no memory.
pub fn value_words(value: &Value, line: &mut ArrayString<LINE_BYTES>)
    requires empty { line.old.bytes ≡ [] }
    ensures { line.new.bytes ≡ value_text value.now }
{
    push_value(value, line);
}
