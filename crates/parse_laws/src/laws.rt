//! Laws about the parts of expressions. For each call that the parsers of statements and modules make, the law
//! `one_answer` of expr_parser holds too, and the call returns the answer that holds. Also the law about NOT and AND.

ghost use Rattle.std.specs.Prelude.{◌≡◌, ℕ, List};
ghost use Rattle.rapid_forms.specs.Parsed.{Spells};
ghost use Rattle.rapid_forms.specs.Reading.{made_read, optional_read};
ghost use Rattle.expr_parser.specs.Grammar.{args, expr, none_or, parts};
ghost use Rattle.expr_parser.specs.Parts.{view_args, view_exprs, view_parts};
ghost use Rattle.expr_parser.specs.Reads.{arg_signs, expr_of_read, exprs_read, inside_read, parts_read};
ghost use Rattle.raw_trees.specs.Plain.{PlainExpr};
ghost use Rattle.raw_trees.specs.Views.{view_expr};
ghost use Rattle.parse_laws.specs.Answered.{HasOneAnswer, TellsAnswer};
ghost use Rattle.parse_laws.specs.Forms.{exprs_within, index_within};
ghost use Rattle.parse_laws.specs.Precedence.{not_a_and_b, not_of_both};

/// Expressions separated by commas: at each nesting depth, each list of tokens has exactly one answer; tokens spell at
/// most one list, at any depth; and `exprs` of expr_parser returns that answer.
pub fn exprs_have_one_answer()
    ensures one { HasOneAnswer exprs_within }
    ensures gives { TellsAnswer exprs_within (λ n. exprs_read (expr_of_read (inside_read n))) view_exprs }
{}

/// An index in braces: the same for `index` of expr_parser.
pub fn index_has_one_answer()
    ensures one { HasOneAnswer index_within }
    ensures gives { TellsAnswer index_within (λ n. (inside_read n).index) view_expr }
{}

/// What follows a name in a place, an index and components or nothing: the same for `place_parts` of expr_parser.
pub fn parts_have_one_answer()
    ensures one { HasOneAnswer parts }
    ensures gives { TellsAnswer parts (λ n. parts_read (inside_read n)) view_parts }
{}

/// Arguments, if any: the same for `args_if_any` of expr_parser.
pub fn args_have_one_answer()
    ensures one { HasOneAnswer args }
    ensures gives { TellsAnswer args (λ n. made_read none_or (optional_read arg_signs (inside_read n).args)) view_args }
{}

/// NOT applies to everything that AND joins after it (RAPID Kernel, expressions): `NOT a AND b` is NOT of `a AND b`,
/// and no other tree.
pub fn not_covers_and()
    ensures tree { (a b : List ℕ) (i j k l : ℕ) → Spells expr (not_of_both a b i j l) (not_a_and_b a b i j k l) }
    ensures only { (a b : List ℕ) (i j k l : ℕ) (other : PlainExpr) → Spells expr other (not_a_and_b a b i j k l) → other ≡ not_of_both a b i j l }
{}
