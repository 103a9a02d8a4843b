//! Laws of tokens.

ghost use Rattle.std.specs.Prelude.{◌≡◌, ℕ, List};
ghost use Rattle.std.specs.List.{All};
ghost use Rattle.rapid_lexer.specs.Tokens.{IsSliceOf, Lexeme, Tiles};
ghost use Rattle.rapid_lexer.specs.Faults.{IsFirstMisfit};
ghost use Rattle.rapid_lexer.specs.declared.fault.LexFault.{LexFault};

/// A text has one list of tokens or one first error, never both. The tokens' texts are slices of it.
pub fn one_reading()
    ensures tokens { (source : List ℕ) (ts us : List Lexeme) → Tiles source ts → Tiles source us → ts ≡ us }
    ensures fault { (source : List ℕ) (f g : LexFault) → IsFirstMisfit source f → IsFirstMisfit source g → f ≡ g }
    ensures apart { (source : List ℕ) (ts : List Lexeme) (f : LexFault) → Tiles source ts → IsFirstMisfit source f → ⊥ }
    ensures slices { (source : List ℕ) (ts : List Lexeme) → Tiles source ts → All (IsSliceOf source) ts }
{}
