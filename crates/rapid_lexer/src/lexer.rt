//! The tokens of a source, one at a time.

ghost use Rattle.std.specs.Prelude.{◌≡◌, ◌<◌, ◌≤◌, ◌+◌, ◌^◌, IfOk, IfSome, Option, Result, is_some, length, drop};
ghost use Rattle.rapid_num.specs.Literal.{literal_value};
ghost use Rattle.rapid_lexer.specs.Words.{word_of};
ghost use Rattle.rapid_lexer.specs.Tokens.{Lexeme};
ghost use Rattle.rapid_lexer.specs.Faults.{seen};
ghost use Rattle.rapid_lexer.specs.Lexing.{seen_next};
ghost use Rattle.rapid_lexer.specs.declared.fault.LexFault.{LexFault};
ghost use Rattle.rapid_lexer.specs.Reading.{characters_len, misfit, name_kind, next_of, token_at, token_of};

use crate::fault::{LexFault, LexRule};
use crate::fronts::front_of;
use crate::gaps::skip_gaps;
use crate::kind::Kind;
use crate::scanner::longest_token;
use crate::strings::{broken, characters_len};
use crate::token::Token;
use crate::words::word_of;
use rapid_limits::{LONGEST_NAME, LONGEST_STRING};
use rapid_num::read_literal;
use std::marker::Model;

/// The tokens of a source from a position on. Contracts see the source, the position after the last token, and the
/// error if one was found.
#[derive(Drop)]
pub struct Lexer<'a> {
    source: &'a [u8],
    at: usize,
    fault: Option<LexFault>,
}

impl<'a> Model for Lexer<'a> {
    ghost use Rattle.std.specs.Prelude.{◌≤◌, length};
    ghost use Rattle.rapid_lexer.specs.Lexing.{Lexing};

    ghost Value = { Lexing };

    ghost view = { λ l. record { source = l.source.now; at = l.at; fault = l.fault } };

    ghost invariant = { λ l. l.at ≤ length l.source.now };
}

/// Whether a literal is within its limits.
fn is_literal(text: &[u8]) -> bool
    ensures { result ≡ is_some (literal_value text.now) }
{
    read_literal(text).is_ok()
}

/// Whether a string, including its quotes, has at most 80 characters.
fn is_short(text: &[u8]) -> bool
    requires { 0 < length text.now }
    ensures { result ≡ is_some (characters_len LONGEST_STRING (drop 1 text.now)) }
{
    characters_len(&text[1..]).is_some()
}

fn name_kind(text: &[u8]) -> Kind
    ensures { result ≡ name_kind (word_of text.now) }
{
    match word_of(text) {
        Some(word) => Kind::Word(word),
        None => Kind::Name,
    }
}

/// The token of a kind with this text, or the limit that it exceeds.
fn token_of(kind: Kind, at: usize, text: &[u8]) -> Result<Token<'_>, LexFault>
    requires { 0 < length text.now }
    ensures { seen result ≡ token_of kind at text.now }
{
    match kind {
        Kind::Name => {
            if text.len() > LONGEST_NAME {
                return Err(LexFault {
                    rule: LexRule::LongName,
                    at,
                });
            }
            Ok(Token {
                kind: name_kind(text),
                text,
                at,
            })
        }
        Kind::Number => {
            if !is_literal(text) {
                return Err(LexFault {
                    rule: LexRule::BadLiteral,
                    at,
                });
            }
            Ok(Token { kind, text, at })
        }
        Kind::Quoted => {
            if !is_short(text) {
                return Err(LexFault {
                    rule: LexRule::LongString,
                    at,
                });
            }
            Ok(Token { kind, text, at })
        }
        Kind::Word(_) | Kind::Mark(_) => Ok(Token { kind, text, at }),
    }
}

/// The error at a position where no token starts.
fn misfit(at: usize, bytes: &[u8]) -> LexFault
    requires { at + length bytes.now < 2 ^ 64 }
    ensures { result ≡ misfit at bytes.now }
{
    match bytes {
        [34, rest @ ..] => broken(at, rest),
        _ => LexFault {
            rule: LexRule::BadByte,
            at,
        },
    }
}

/// The token that starts at a position, or the error there.
fn token_at(source: &[u8], at: usize) -> Result<Token<'_>, LexFault>
    requires { at ≤ length source.now }
    ensures { seen result ≡ token_at at (drop at source.now) }
{
    let bytes = &source[at..];
    match longest_token(bytes) {
        None => Err(misfit(at, bytes)),
        Some((kind, len)) => token_of(kind, at, &bytes[..len]),
    }
}

/// What comes next from a position on.
fn next_of(source: &[u8], at: usize) -> Option<Result<Token<'_>, LexFault>>
    requires { at ≤ length source.now }
    ensures same { seen_next result ≡ next_of at (drop at source.now) }
    ensures within { IfSome result (λ r. IfOk r (λ t. t.at + length t.text.now ≤ length source.now)) }
{
    let here = skip_gaps(source, at);
    if here == source.len() {
        return None;
    }
    Some(token_at(source, here))
}

impl<'a> Lexer<'a> {
    ghost use Rattle.rapid_lexer.specs.Gaps.{front_of};
    ghost use Rattle.rapid_lexer.specs.Lexing.{IsAnswer, IsAtFront, lexing_after};

    /// The tokens of a source, from after its byte order mark and header (RAPID Kernel, file headers).
    pub fn new(source: &'a [u8]) -> Lexer<'a>
        ensures source { result.source ≡ source.now }
        ensures front { IsAtFront result (front_of source.now) }
    {
        match front_of(source) {
            Ok(at) => Lexer {
                source,
                at,
                fault: None,
            },
            Err(at) => Lexer {
                source,
                at: 0,
                fault: Some(LexFault {
                    rule: LexRule::OpenHeader,
                    at,
                }),
            },
        }
    }

    /// The next token, as a slice of the source. `None` if only gaps are left. At the first position where no token
    /// fits, returns the error, and the same error in every later call.
    pub fn next_token(&mut self) -> Option<Result<Token<'a>, LexFault>>
        ensures answer { IsAnswer self.old (seen_next result) }
        ensures only { (other : Option (Result Lexeme LexFault)) → IsAnswer self.old other → other ≡ seen_next result }
        ensures after { self.new ≡ lexing_after self.old (seen_next result) }
    {
        if let Some(fault) = self.fault {
            return Some(Err(fault));
        }
        let next = next_of(self.source, self.at);
        match &next {
            Some(Ok(token)) => self.at = token.at + token.text.len(),
            Some(Err(fault)) => self.fault = Some(*fault),
            None => {}
        }
        next
    }
}
