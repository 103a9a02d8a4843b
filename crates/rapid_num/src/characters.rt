//! Character tests.

ghost use Rattle.std.specs.Prelude.{◌≡◌};
ghost use Rattle.rapid_num.specs.Characters.{is_printable};

/// Whether a string may contain the byte and an escape may encode it: 20 to 7E hexadecimal (RAPID Kernel, lexical
/// elements).
pub fn is_printable(byte: u8) -> bool
    ensures { result ≡ is_printable byte }
{
    byte >= 32 && byte <= 126
}
