//! The steps of a parser over tokens.

ghost use Rattle.std.specs.Prelude.{◌≡◌, ◌∷◌, [], if◌then◌else◌};
ghost use Rattle.rapid_lexer.specs.Tokens.{view};
ghost use Rattle.rapid_forms.specs.Signs.{begins_with, first_sign, has, is_seen};
ghost use Rattle.rapid_forms.specs.Forms.{first_byte};
ghost use Rattle.rapid_forms.specs.Parsed.{byte_or, depth_fault, syntax_fault};
ghost use Rattle.rapid_forms.specs.Reading.{Gives, one_read, rest_from};

use crate::fault::{SyntaxFault, SyntaxRule};
use crate::sign::Sign;
use crate::signs::sign_of;
use rapid_lexer::Token;

/// The tokens of a text, and the length of the text in bytes.
#[derive(Clone, Copy, Debug)]
pub struct Tokens<'t, 'a> {
    pub list: &'t [Token<'a>],
    pub end: usize,
}

fn is_one_of(sign: Sign, signs: &[Sign]) -> bool
    ensures { result ≡ has signs.now sign }
{
    for other in signs {
        if *other as u8 == sign as u8 {
            return true;
        }
    }
    false
}

/// Whether there is a sign, and it is this one.
pub fn is_seen(seen: Option<Sign>, sign: Sign) -> bool
    ensures { result ≡ is_seen (sign ∷ []) seen }
{
    match seen {
        Some(other) => is_one_of(other, &[sign]),
        None => false,
    }
}

impl<'t, 'a> Tokens<'t, 'a> {
    /// The sign of token `at`, if there is one.
    pub fn sign(&self, at: usize) -> Option<Sign>
        ensures { result ≡ first_sign (rest_from self.now at) }
    {
        match self.list.get(at) {
            Some(token) => Some(sign_of(token)),
            None => None,
        }
    }

    /// Whether there is a token `at`, and it has one of these signs.
    pub fn sees(&self, at: usize, signs: &[Sign]) -> bool
        ensures { result ≡ begins_with signs.now (rest_from self.now at) }
    {
        match self.list.get(at) {
            Some(token) => is_one_of(sign_of(token), signs),
            None => false,
        }
    }

    /// Token `at`, if it has one of these signs, and the number of the next token.
    pub fn take(&self, at: usize, signs: &[Sign]) -> Result<(Token<'a>, usize), SyntaxFault>
        ensures { Gives self.now view result (one_read signs.now (rest_from self.now at)) }
    {
        match self.list.get(at) {
            Some(token) if is_one_of(sign_of(token), signs) => Ok((*token, at + 1)),
            _ => Err(self.fails(at)),
        }
    }

    /// The byte of token `at`; 0 if there is none.
    pub fn byte_at(&self, at: usize) -> usize
        ensures { result ≡ first_byte (rest_from self.now at) }
    {
        match self.list.get(at) {
            Some(token) => token.at,
            None => 0,
        }
    }

    /// The byte of token `at`, or the end of the text.
    fn byte_or_end(&self, at: usize) -> usize
        ensures { result ≡ byte_or self.now.end (rest_from self.now at) }
    {
        match self.list.get(at) {
            Some(token) => token.at,
            None => self.end,
        }
    }

    /// The fault if token `at` does not continue those before it.
    pub fn fails(&self, at: usize) -> SyntaxFault
        ensures { result ≡ syntax_fault self.now.end (rest_from self.now at) }
    {
        let rule = if self.sees(at, &[Sign::Alias, Sign::Record, Sign::Undo, Sign::Backward]) {
            SyntaxRule::LeftOut
        } else {
            SyntaxRule::Syntax
        };
        SyntaxFault::Rule {
            rule,
            at: self.byte_or_end(at),
        }
    }

    /// The fault if no level is left for a form that starts with one of these signs. If token `at` has one of them, it
    /// opens a level too many; else it does not continue those before it.
    pub fn no_level(&self, at: usize, signs: &[Sign]) -> SyntaxFault
        ensures { result ≡ (if begins_with signs.now (rest_from self.now at) then depth_fault self.now.end (rest_from self.now at) else syntax_fault self.now.end (rest_from self.now at)) }
    {
        if !self.sees(at, signs) {
            return self.fails(at);
        }
        SyntaxFault::Rule {
            rule: SyntaxRule::TooDeep,
            at: self.byte_or_end(at),
        }
    }
}
