//! All tokens of a source.

ghost use Rattle.std.specs.Prelude.{◌≡◌, Err, IfOk, List};
ghost use Rattle.rapid_lexer.specs.Tokens.{Lexeme, Tiles, views};
ghost use Rattle.rapid_lexer.specs.Faults.{IsFirstMisfit};
ghost use Rattle.rapid_lexer.specs.Lexing.{FindsFault, FindsTokens};
ghost use Rattle.rapid_lexer.specs.declared.fault.LexFault.{LexFault};
ghost use Rattle.rapid_lexer.specs.declared.fault.TokensFault.TheVariants.{Lex};

use crate::fault::TokensFault;
use crate::lexer::Lexer;
use crate::token::Token;
use std::alloc::Global;

fn all_tokens(alloc: Global, source: &[u8]) -> Result<Vec<Token<'_>>, TokensFault>
    ensures tiles { IfOk result (λ v. Tiles source.now (views v.items)) }
    ensures fault { (f : LexFault) → result ≡ Err (Lex f) → IsFirstMisfit source.now f }
{
    let mut lexer = Lexer::new(source);
    let mut tokens = Vec::new(alloc);
    while let Some(next) = lexer.next_token() {
        match next {
            Ok(token) => tokens.push(token)?,
            Err(fault) => return Err(TokensFault::Lex(fault)),
        }
    }
    Ok(tokens)
}

/// All tokens of a source, as slices of it. `Lex` is the error at the first position where no token fits. `Memory` is
/// returned only if an allocation fails.
pub fn read_tokens(alloc: Global, source: &[u8]) -> Result<Vec<Token<'_>>, TokensFault>
    // Gaps and the tokens, put together, are the source.
    ensures tiles { IfOk result (λ v. Tiles source.now (views v.items)) }
    // No other tokens tile the source.
    ensures only { (ts : List Lexeme) → Tiles source.now ts → FindsTokens (λ v. v.items) result ts }
    // The error is the one at the first position where no token fits.
    ensures fault { (f : LexFault) → result ≡ Err (Lex f) → IsFirstMisfit source.now f }
    // It is found exactly if there is one.
    ensures fault_only { (f : LexFault) → IsFirstMisfit source.now f → FindsFault result f }
{
    all_tokens(alloc, source)
}
