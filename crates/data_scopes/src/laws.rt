//! Laws of kept values, and of the numbers that names mean.

ghost use Rattle.std.specs.Prelude.{◌≡◌, ◌≢◌, ◌<◌, ℕ, Bool, List, Ok, Some, length, slice_get};
ghost use Rattle.rapid_model.specs.declared.signal_row.SignalRow.{SignalRow};
ghost use Rattle.rapid_model.specs.declared.value.Value.{Value};
ghost use Rattle.raw_trees.specs.Plain.{PlainModule};
ghost use Rattle.data_scopes.specs.declared.meant.Meant.{Meant};
ghost use Rattle.rule_checks.specs.declared.spot.Spot.{Spot};
ghost use Rattle.data_scopes.specs.Kept.{with_kept};
ghost use Rattle.data_scopes.specs.Naming.{names_of};
ghost use Rattle.data_scopes.specs.Numbered.{HasRow};
ghost use Rattle.data_scopes.specs.Scopes.{Names, meaning};

/// The value kept for a constant is found there, and nothing changes for other constants.
pub fn kept_by_number()
    ensures same { (names : Names) (constant : ℕ) (value : Value) → constant < length names.kept → slice_get (with_kept names constant value).kept constant ≡ Some (Some value) }
    ensures others { (names : Names) (constant other : ℕ) (value : Value) → other ≢ constant → slice_get (with_kept names constant value).kept other ≡ slice_get names.kept other }
{}

/// Each VAR, PERS, CONST and routine that a name means at a spot of a task's modules has a row.
pub fn numbers_have_rows()
    ensures { (modules : List PlainModule) (signals : List SignalRow) (axes : ℕ) (names : Names) → names_of modules signals axes ≡ Ok names → (spot : Spot) (name : List ℕ) (meant : Meant) → meaning names.tables spot name ≡ Some meant → HasRow names.rows meant }
{}
