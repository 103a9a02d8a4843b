ghost use Rattle.std.specs.Prelude.{◌≡◌, ℕ, length, slice_get};
ghost use Rattle.typed_trees.specs.Plain.{TypedTree};
ghost use Rattle.stack_code.specs.Compiled.{compiled, placed_in};
ghost use Rattle.stack_code.specs.Placed.{placed_at};
ghost use Rattle.task_code.specs.Owners.{Tiles};

/// A law: the owners of compiled code tile its operations, and each operation belongs to the statement that it was laid
/// out for.
pub fn compiled_code_is_tiled()
    ensures tiles { (tree : TypedTree) → Tiles 0 (length (compiled tree).ops) (compiled tree).owners }
    ensures owned { (tree : TypedTree) (pc : ℕ) → placed_at (compiled tree) pc ≡ slice_get (placed_in tree) pc }
{}
