//! Which statements are well typed, form by form, and that checking accepts exactly these.

ghost use Rattle.std.specs.Prelude.{◌≡◌, ℕ, Ok, ◌↔◌};
ghost use Rattle.raw_trees.specs.Plain.{PlainStmts};
ghost use Rattle.typed_trees.specs.Plain.{TypedStmts};
ghost use Rattle.stmt_types.specs.Bodies.{Body, Around, stmts};
ghost use Rattle.type_laws.specs.Statements.{AreStmts};

/// Checking gives a list of statements a typed list exactly if it is a typed form of the list, and the number of the
/// next FOR grows by as many as it has.
pub fn statements_are_typed()
    ensures { (body : Body) (list : PlainStmts) (around : Around) (next : ℕ) (ts : TypedStmts) (past : ℕ) → (stmts body list around next ≡ Ok (record { tree = ts; next = past })) ↔ AreStmts body list around next ts past }
{}

/// Statements have at most one typed form in their context, with one number for the FOR after them.
pub fn statements_have_one_form()
    ensures { (body : Body) (list : PlainStmts) (around : Around) (next : ℕ) (ts us : TypedStmts) (past other : ℕ) → AreStmts body list around next ts past → AreStmts body list around next us other → (ts ≡ us) × (past ≡ other) }
{}
