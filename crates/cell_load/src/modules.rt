//! The modules.

ghost use Rattle.std.specs.Prelude.{◌≡◌, IfOk, string_bytes};
ghost use Rattle.cell_load.specs.Texts.{module_file, module_files, module_text};
ghost use Rattle.cell_load.specs.Views.{view_module, view_modules};

use crate::TASKS;
use std::alloc::{AllocError, Global};

/// The modules of the tasks, each with its name.
pub(crate) fn make_modules(alloc: Global, moves: u32) -> Result<Vec<(String, Vec<u8>)>, AllocError>
    ensures { IfOk result (λ modules. view_modules modules.items ≡ module_files moves) }
{
    let mut modules = Vec::with_capacity(alloc, TASKS.len())?;
    for task in &TASKS {
        modules.push(make_module(alloc, moves, *task)?)?;
    }
    Ok(modules)
}

/// The module of a task, with its name.
fn make_module(alloc: Global, moves: u32, task: u32) -> Result<(String, Vec<u8>), AllocError>
    ensures { IfOk result (λ file. view_module file ≡ module_file moves task) }
{
    let name = format!(in alloc; "l{task}.mod")?;
    let text = make_text(alloc, moves, task)?;
    Ok((name, text.into_bytes()))
}

/// The text of the module of a task.
fn make_text(alloc: Global, moves: u32, task: u32) -> Result<String, AllocError>
    ensures { IfOk result (λ text. string_bytes text ≡ module_text moves task) }
{
    format!(in alloc;
        "MODULE Load\n\
         PERS num total := 0;\n\
         VAR jointtarget j := [[0,0,0,0,0,0],[9E9,9E9,9E9,9E9,9E9,9E9]];\n\
         PROC main()\n\
         FOR i FROM 1 TO {moves} DO\n\
         j.robax.rax_1 := (i * 37 + {task} * 11) MOD 90;\n\
         MoveAbsJ j\\NoEOffs, v1000, fine, tool0;\n\
         total := total + 1;\n\
         ENDFOR\n\
         ENDPROC\n\
         ENDMODULE\n"
    )
}
