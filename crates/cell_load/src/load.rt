ghost use Rattle.std.specs.Prelude.{◌≡◌, ◌≤◌, IfOk};
ghost use Rattle.cell_load.specs.Texts.{module_files, script_text};
ghost use Rattle.cell_load.specs.Views.{view_modules};

use crate::modules::make_modules;
use crate::script::make_script;
use rapid_num::Memory;
use std::alloc::Global;

/// The texts of a load cell.
#[derive(Drop)]
pub struct Load {
    /// The cell script.
    pub script: Vec<u8>,
    /// The modules that the script names, in the order of their tasks, each with its name.
    pub modules: Vec<(String, Vec<u8>)>,
}

/// The load cell with that many moves, 1 to 1000. Each of its tasks L1 to L4 has an arm and its own module, `l1.mod` to
/// `l4.mod`: it moves axis 1 of the arm that many times, and after each move adds 1 to `total`, a persistent of all
/// tasks. Fails only if an allocation fails.
pub fn make_load(alloc: Global, moves: u32) -> Result<Load, Memory>
    requires least { 1 ≤ moves }
    requires most { moves ≤ 1000 }
    ensures script { IfOk result (λ load. load.script.items ≡ script_text moves) }
    ensures modules { IfOk result (λ load. view_modules load.modules.items ≡ module_files moves) }
{
    let script = make_script(alloc, moves).map_err(|_| Memory)?;
    let modules = make_modules(alloc, moves).map_err(|_| Memory)?;
    Ok(Load { script, modules })
}
