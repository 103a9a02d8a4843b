//! The law about expressions.

ghost use Rattle.std.specs.Prelude.{◌≡◌, ℕ, List, ◌⊎◌};
ghost use Rattle.rapid_lexer.specs.Tokens.{Lexeme};
ghost use Rattle.raw_trees.specs.Plain.{PlainExpr};
ghost use Rattle.rapid_forms.specs.Parsed.{IsFaulty, IsParsed, IsTooDeep, Spells};
ghost use Rattle.expr_parser.specs.Grammar.{expr};

/// At each nesting depth, each list of tokens has exactly one answer; and tokens spell at most one expression, at any
/// depth.
pub fn one_answer()
    ensures some { (n : ℕ) (ts : List Lexeme) → ((x : PlainExpr) × (k : ℕ) × IsParsed expr n ts x k) ⊎ (((k : ℕ) × IsFaulty expr n ts k) ⊎ ((k : ℕ) × IsTooDeep expr n ts k)) }
    ensures tree { (n : ℕ) (ts : List Lexeme) (x y : PlainExpr) (j k : ℕ) → IsParsed expr n ts x j → IsParsed expr n ts y k → (x ≡ y) × (j ≡ k) }
    ensures fault { (n : ℕ) (ts : List Lexeme) (j k : ℕ) → IsFaulty expr n ts j → IsFaulty expr n ts k → j ≡ k }
    ensures depth { (n : ℕ) (ts : List Lexeme) (j k : ℕ) → IsTooDeep expr n ts j → IsTooDeep expr n ts k → j ≡ k }
    ensures apart { (n : ℕ) (ts : List Lexeme) (x : PlainExpr) (i j k : ℕ) → (IsParsed expr n ts x i → IsFaulty expr n ts j → ⊥) × (IsParsed expr n ts x i → IsTooDeep expr n ts k → ⊥) × (IsFaulty expr n ts j → IsTooDeep expr n ts k → ⊥) }
    ensures spelling { (x y : PlainExpr) (ts : List Lexeme) → Spells expr x ts → Spells expr y ts → x ≡ y }
{}
