ghost use Rattle.std.specs.Prelude.{◌≡◌, All, IfOk, map};
ghost use Rattle.std.specs.List.{AllByRecursion};
ghost use Rattle.typed_trees.specs.Views.{view_tree};
ghost use Rattle.stack_code.specs.Compiled.{compiled};
ghost use Rattle.code_laws.specs.Checked.{IsChecked};
ghost use Rattle.task_steps.specs.Phases as phases;

use crate::code::compile_one;
use std::alloc::{AllocError, Global};
use task_machine::Machine;
use typed_trees::Tree;

/// A machine for each task, given the trees.
pub fn crew_of(alloc: Global, trees: &[Tree]) -> Result<Vec<Machine>, AllocError>
    requires { All IsChecked (map view_tree trees.now) }
    ensures programs { IfOk result (λ machines. map (λ m. m.code) machines.items ≡ map compiled (map view_tree trees.now)) }
    ensures fresh { IfOk result (λ machines. AllByRecursion (λ m. m.phase ≡ phases.New) machines.items) }
{
    let mut machines = Vec::new(alloc);
    for tree in trees {
        let machine = machine_of(alloc, tree)?;
        machines.push(machine)?;
    }
    Ok(machines)
}

/// A machine that runs the code of a tree and has asked nothing yet.
fn machine_of(alloc: Global, tree: &Tree) -> Result<Machine, AllocError>
    requires { IsChecked (view_tree tree.now) }
    ensures program { IfOk result (λ m. m.code ≡ compiled (view_tree tree.now)) }
    ensures fresh { IfOk result (λ m. m.phase ≡ phases.New) }
{
    let code = compile_one(alloc, tree)?;
    match Machine::new(alloc, code) {
        Ok(machine) => Ok(machine),
        Err(_) => Err(AllocError),
    }
}
