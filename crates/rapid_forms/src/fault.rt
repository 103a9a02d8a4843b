//! Why tokens are not a form.

ghost use Rattle.std.specs.Prelude.{◌≡◌, ◌≤◌, length};
ghost use Rattle.rapid_forms.specs.Names.{syntax_rule_name};
ghost use Rattle.rapid_forms.specs.declared.fault.SyntaxFault.TheVariants.{Memory};

use rapid_lexer::LexFault;
use std::alloc::{AllocError, AllocFailed};

/// The error at the first token that makes the tokens so far no prefix of the form.
#[derive(Clone, Copy, Debug, PartialEq, Eq)]
pub enum SyntaxRule {
    /// The token cannot come here, or the text ends too early.
    Syntax,
    /// The token is a word of RAPID that this profile does not support: ALIAS, RECORD, UNDO or BACKWARD.
    LeftOut,
    /// The token opens a 65th level of nesting.
    TooDeep,
}

impl SyntaxRule {
    /// The name of the rule in error messages, at most 7 bytes.
    pub fn name(self) -> &'static [u8]
        ensures same { result.now ≡ syntax_rule_name self }
        ensures short { length result.now ≤ 7 }
    {
        match self {
            SyntaxRule::Syntax => b"Syntax",
            SyntaxRule::LeftOut => b"LeftOut",
            SyntaxRule::TooDeep => b"TooDeep",
        }
    }
}

/// Why there is no tree.
#[derive(Clone, Copy, Debug, PartialEq, Eq)]
pub enum SyntaxFault {
    /// The rule, and the byte in the source where it is broken, from 0.
    Rule { rule: SyntaxRule, at: usize },
    /// The text is not a list of tokens.
    Lex(LexFault),
    /// Out of memory.
    Memory,
}

impl From<AllocError> for SyntaxFault {
    ghost from_gives = { λ _ e. e ≡ Memory };

    fn from(_e: AllocError) -> SyntaxFault {
        SyntaxFault::Memory
    }
}

impl<T: Drop> From<AllocFailed<T>> for SyntaxFault {
    ghost from_gives = { λ _ e. e ≡ Memory };

    fn from(_e: AllocFailed<T>) -> SyntaxFault {
        SyntaxFault::Memory
    }
}
