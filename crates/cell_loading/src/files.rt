ghost use Rattle.std.specs.Prelude.{◌≡◌, ◌≤◌, ◌++◌, length, IfOk, OnOk};
ghost use Rattle.rapid_model.specs.ScriptData.{module_names};
ghost use Rattle.cell_loading.specs.Loaded.{names_in_turn};

use rapid_limits::MOST_MODULE_FILES;
use rapid_model::{Script, ScriptTask};
use std::alloc::{AllocError, Global};

/// The names of the files of a script's modules, in the order in which they are read.
pub fn module_files(alloc: Global, script: &Script) -> Result<Vec<&str>, AllocError>
    ensures named { IfOk result (λ found. names_in_turn found.items ≡ module_names script.now.tasks) }
    ensures few { IfOk result (λ found. length found.items ≤ MOST_MODULE_FILES) }
{
    let _steps = script.steps();
    let mut found = Vec::new(alloc);
    let tasks = script.tasks().as_slice();
    for task in tasks {
        push_files(&mut found, task)?;
    }
    Ok(found)
}

/// Appends the names of the files of a task's modules.
fn push_files<'a>(found: &mut Vec<&'a str>, task: &'a ScriptTask) -> Result<(), AllocError>
    ensures { OnOk result (names_in_turn found.new.items ≡ names_in_turn found.old.items ++ task.now.modules) }
{
    let files = task.modules.as_slice();
    for file in files {
        found.push(file.as_str())?;
    }
    Ok(())
}
