//! Why a text is not a list of tokens.

ghost use Rattle.std.specs.Prelude.{◌≡◌, ◌≤◌, length};
ghost use Rattle.rapid_lexer.specs.Names.{lex_rule_name};
ghost use Rattle.rapid_lexer.specs.declared.fault.TokensFault.TheVariants.{Memory};

use std::alloc::{AllocError, AllocFailed};

/// The error at the first position where no token fits (RAPID Kernel, lexical elements).
#[derive(Clone, Copy, Debug, PartialEq, Eq)]
pub enum LexRule {
    /// The byte starts neither a token nor a gap, or a string contains a byte below 20 or above 7E hexadecimal.
    BadByte,
    /// The line or the text ends inside a string.
    OpenString,
    /// A backslash in a string does not start an escape.
    BadEscape,
    /// A string has more than 80 characters.
    LongString,
    /// A name has more than 32 bytes.
    LongName,
    /// A literal has more than 30 bytes, or its value is out of range.
    BadLiteral,
    /// A header has no end.
    OpenHeader,
}

impl LexRule {
    /// The name of the rule in error messages, at most 10 bytes.
    pub fn name(self) -> &'static [u8]
        ensures same { result.now ≡ lex_rule_name self }
        ensures short { length result.now ≤ 10 }
    {
        match self {
            LexRule::BadByte => b"BadByte",
            LexRule::OpenString => b"OpenString",
            LexRule::BadEscape => b"BadEscape",
            LexRule::LongString => b"LongString",
            LexRule::LongName => b"LongName",
            LexRule::BadLiteral => b"BadLiteral",
            LexRule::OpenHeader => b"OpenHeader",
        }
    }
}

/// A rule, and the byte in the source where it is broken, from 0.
#[derive(Clone, Copy, Debug, PartialEq, Eq)]
pub struct LexFault {
    pub rule: LexRule,
    pub at: usize,
}

/// Why there is no list of tokens: no token fits at some position, or out of memory.
#[derive(Clone, Copy, Debug, PartialEq, Eq)]
pub enum TokensFault {
    Lex(LexFault),
    Memory,
}

impl From<AllocError> for TokensFault {
    ghost from_gives = { λ _ e. e ≡ Memory };

    fn from(_e: AllocError) -> TokensFault {
        TokensFault::Memory
    }
}

impl<T: Drop> From<AllocFailed<T>> for TokensFault {
    ghost from_gives = { λ _ e. e ≡ Memory };

    fn from(_e: AllocFailed<T>) -> TokensFault {
        TokensFault::Memory
    }
}
