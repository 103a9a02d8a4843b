ghost use Rattle.std.specs.Prelude.{◌≡◌, List, Ok};
ghost use Rattle.toml.specs.Data.{Members};
ghost use Rattle.rapid_model.specs.ScriptData.{ScriptData};
ghost use Rattle.typed_trees.specs.Plain.{TypedTree};
ghost use Rattle.cell_script.specs.ScriptOf.{script_of};
ghost use Rattle.cell_assembly.specs.Made.{make_cell};
ghost use Rattle.script_migration.specs.Migrated.{with_version_2};

/// A law: a table that spells a script spells the same script with its version set to 2, but for the version. With the
/// same trees both have the same cell.
pub fn migrated_scripts_say_the_same()
    ensures script { (members : Members) (script : ScriptData) → script_of members ≡ Ok script → script_of (with_version_2 members) ≡ Ok (record script { version = 2 }) }
    ensures cell { (script : ScriptData) (trees : List TypedTree) → make_cell (record script { version = 2 }) trees ≡ make_cell script trees }
{}
