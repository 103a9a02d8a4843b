ghost use Rattle.std.specs.Prelude.{◌≡◌, ◌↔◌, IsTrue, List, Ok, Err};
ghost use Rattle.std.specs.List.{list_all};
ghost use Rattle.rapid_model.specs.CellData.{CellData};
ghost use Rattle.rapid_model.specs.ScriptData.{ScriptData, is_pers_value};
ghost use Rattle.typed_trees.specs.Plain.{TypedTree};
ghost use Rattle.typed_trees.specs.Sound.{has_sound_pers};
ghost use Rattle.cell_assembly.specs.Cells.{CellBreak};
ghost use Rattle.cell_assembly.specs.Made.{make_cell};
ghost use Rattle.cell_rules.specs.Cell.{IsCellOf};
ghost use Rattle.cell_rules.specs.Refused.{IsRefused};

/// A law: a script and its tasks' trees make exactly the cell and the numbered trees that the declarations and the
/// script say, and they make none exactly if a declaration clashes or a value of the script breaks a rule; the refusal
/// is the first of these. The declarations are sound, as those of checked tasks are, and the script's values have
/// indexes from 1.
pub fn cells_are_right()
    ensures made { (script : ScriptData) (trees : List TypedTree) → IsTrue (list_all is_pers_value script.pers) → IsTrue (list_all has_sound_pers trees) → (cell : CellData) (numbered : List TypedTree) → (make_cell script trees ≡ Ok (record { cell = cell; trees = numbered })) ↔ IsCellOf script trees cell numbered }
    ensures refused { (script : ScriptData) (trees : List TypedTree) → IsTrue (list_all is_pers_value script.pers) → IsTrue (list_all has_sound_pers trees) → (broken : CellBreak) → (make_cell script trees ≡ Err broken) ↔ IsRefused script trees broken }
{}
