//! Laws about lists of statements.

ghost use Rattle.std.specs.Prelude.{◌≡◌, ℕ, List, ◌⊎◌};
ghost use Rattle.rapid_lexer.specs.Tokens.{Lexeme};
ghost use Rattle.raw_trees.specs.Plain.{PlainStmt};
ghost use Rattle.rapid_forms.specs.Parsed.{IsFaulty, IsParsed, IsTooDeep, Spells};
ghost use Rattle.stmt_parser.specs.Grammar.{items};

/// At each nesting depth, each list of tokens has exactly one answer; and tokens spell at most one list of statements,
/// at any depth.
pub fn one_list()
    ensures some { (n : ℕ) (ts : List Lexeme) → ((x : List PlainStmt) × (k : ℕ) × IsParsed items n ts x k) ⊎ (((k : ℕ) × IsFaulty items n ts k) ⊎ ((k : ℕ) × IsTooDeep items n ts k)) }
    ensures tree { (n : ℕ) (ts : List Lexeme) (x y : List PlainStmt) (j k : ℕ) → IsParsed items n ts x j → IsParsed items n ts y k → (x ≡ y) × (j ≡ k) }
    ensures fault { (n : ℕ) (ts : List Lexeme) (j k : ℕ) → IsFaulty items n ts j → IsFaulty items n ts k → j ≡ k }
    ensures depth { (n : ℕ) (ts : List Lexeme) (j k : ℕ) → IsTooDeep items n ts j → IsTooDeep items n ts k → j ≡ k }
    ensures apart { (n : ℕ) (ts : List Lexeme) (x : List PlainStmt) (i j k : ℕ) → (IsParsed items n ts x i → IsFaulty items n ts j → ⊥) × (IsParsed items n ts x i → IsTooDeep items n ts k → ⊥) × (IsFaulty items n ts j → IsTooDeep items n ts k → ⊥) }
    ensures spelling { (x y : List PlainStmt) (ts : List Lexeme) → Spells items x ts → Spells items y ts → x ≡ y }
{}
