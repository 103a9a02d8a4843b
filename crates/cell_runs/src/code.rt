ghost use Rattle.std.specs.Prelude.{◌≡◌, IfOk, map, All};
ghost use Rattle.stack_code.specs.Compiled.{compiled};
ghost use Rattle.typed_trees.specs.Views.{view_tree};
ghost use Rattle.code_laws.specs.Checked.{IsChecked};

use code_compiler::compile;
use std::alloc::{AllocError, Global};
use task_code::Code;
use typed_trees::Tree;

/// The code of each task, given the trees.
pub fn compile_all(alloc: Global, trees: &[Tree]) -> Result<Vec<Code>, AllocError>
    requires { All IsChecked (map view_tree trees.now) }
    ensures { IfOk result (λ each. each.items ≡ map compiled (map view_tree trees.now)) }
{
    let mut each = Vec::new(alloc);
    for tree in trees {
        let code = compile_one(alloc, tree)?;
        each.push(code)?;
    }
    Ok(each)
}

/// The code of a task.
pub(crate) fn compile_one(alloc: Global, tree: &Tree) -> Result<Code, AllocError>
    requires { IsChecked (view_tree tree.now) }
    ensures { IfOk result (λ code. code ≡ compiled (view_tree tree.now)) }
{
    match compile(alloc, tree) {
        Ok(code) => Ok(code),
        Err(_) => Err(AllocError),
    }
}
