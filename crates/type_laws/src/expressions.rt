//! Which expressions are well typed, form by form, and that checking accepts exactly these.

ghost use Rattle.std.specs.Prelude.{◌≡◌, Ok, ◌↔◌};
ghost use Rattle.raw_trees.specs.Plain.{PlainExpr};
ghost use Rattle.typed_trees.specs.Plain.{TypedExpr};
ghost use Rattle.named_data.specs.declared.wanted.Wanted.{Wanted};
ghost use Rattle.named_data.specs.Rules.{Site};
ghost use Rattle.expr_types.specs.Typing.{typed};
ghost use Rattle.type_laws.specs.Expressions.{IsExpr};

/// Checking gives an expression a typed form exactly if it is a typed form of the expression.
pub fn expressions_are_typed()
    ensures { (s : Site) (e : PlainExpr) (want : Wanted) (t : TypedExpr) → (typed s e want ≡ Ok t) ↔ IsExpr s e want t }
{}

/// An expression has at most one typed form at its site.
pub fn expressions_have_one_form()
    ensures { (s : Site) (e : PlainExpr) (want : Wanted) (t u : TypedExpr) → IsExpr s e want t → IsExpr s e want u → t ≡ u }
{}
