//! The cell script.

ghost use Rattle.std.specs.Prelude.{◌≡◌, ◌≤◌, ◌++◌, IfOk, OnOk, string_bytes};
ghost use Rattle.cell_load.specs.Texts.{script_text, task_text};

use crate::TASKS;
use std::alloc::{AllocError, Global};

/// The script of the tasks with that many moves.
pub(crate) fn make_script(alloc: Global, moves: u32) -> Result<Vec<u8>, AllocError>
    requires { moves ≤ 1000 }
    ensures { IfOk result (λ script. script.items ≡ script_text moves) }
{
    let steps = 500 * moves + 500;
    let mut script = format!(in alloc; "version = 1\nsteps = {steps}\n")?;
    for task in &TASKS {
        push_task(*task, &mut script)?;
    }
    Ok(script.into_bytes())
}

/// Appends a task.
fn push_task(task: u32, script: &mut String) -> Result<(), AllocError>
    ensures { OnOk result (string_bytes script.new ≡ string_bytes script.old ++ task_text task) }
{
    write!(
        script,
        "[[task]]\n\
         name = \"L{task}\"\n\
         modules = [\"l{task}.mod\"]\n\
         arm = [0,0,0,0,0,0]\n"
    )
}
