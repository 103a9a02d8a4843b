ghost use Rattle.std.specs.Prelude.{◌≡◌, ◌+◌, ◌≤◌, IfOk, map, length, take};
ghost use Rattle.rapid_model.specs.CellData.{CellData};
ghost use Rattle.typed_trees.specs.Views.{view_tree};
ghost use Rattle.cell_loading.specs.ReadModules.{rule_refusal, names_in, typed_task, typed_tasks, modules_before, checked};
ghost use Rattle.cell_loading.specs.Files.{Gives};
ghost use Rattle.cell_loading.specs.Loaded.{made_of, reads_in, ArePaired, IsRuleRefusal, IsCellRefusal};

use crate::modules::{Modules, first_modules, later_modules, module_refusal};
use crate::refused::{ModuleRule, Refused};
use cell_assembly::{CellFault, make_cell};
use data_scopes::Known;
use rapid_limits::MOST_MODULE_FILES;
use rapid_model::{Cell, NameText, Script, ScriptTask};
use rule_checks::{TypeFault, TypeRule};
use std::alloc::{AllocError, Global};
use task_types::check_task;
use typed_trees::Tree;

/// A cell, and the trees of its tasks, which use its numbers, in script order.
#[derive(Drop)]
pub struct CheckedCell {
    pub cell: Cell,
    pub trees: Vec<Tree>,
}

/// The cell of a script and of its modules, and the trees of its tasks. They are checked by names and types, task by
/// task, then by what the tasks share, then by the script's values of persistents.
pub fn check_modules(
    alloc: Global,
    script: &Script,
    modules: &Modules<'_, '_>,
) -> Result<CheckedCell, Refused>
    requires { ArePaired modules.now }
    ensures gives { Gives made_of (checked script.now (reads_in modules.now)) result }
    ensures one_each { IfOk result (λ checked. length checked.trees.items ≡ length script.now.tasks) }
{
    let mut trees = check_tasks(alloc, script, modules)?;
    match make_cell(alloc, script, &mut trees) {
        Ok(cell) => Ok(CheckedCell { cell, trees }),
        Err(fault) => Err(cell_refusal(script, modules, fault)),
    }
}

/// The typed trees of the tasks, in script order.
fn check_tasks(
    alloc: Global,
    script: &Script,
    modules: &Modules<'_, '_>,
) -> Result<Vec<Tree>, Refused>
    requires { ArePaired modules.now }
    ensures { Gives (λ trees. map view_tree trees.items) (typed_tasks script.now script.now.tasks (reads_in modules.now)) result }
{
    let tasks = script.tasks().as_slice();
    let names = names_in(alloc, tasks)?;
    let mut trees = Vec::new(alloc);
    let mut rest = *modules;
    for task in tasks {
        let tree = check_one(alloc, script, names.as_slice(), task, &rest)?;
        trees.push(tree)?;
        rest = later_modules(&rest, task.modules.len());
    }
    Ok(trees)
}

/// The typed tree of a task, whose modules are the first of these.
fn check_one(
    alloc: Global,
    script: &Script,
    names: &[NameText],
    task: &ScriptTask,
    modules: &Modules<'_, '_>,
) -> Result<Tree, Refused>
    requires names { names.now ≡ names_in script.now.tasks }
    requires paired { ArePaired modules.now }
    ensures { Gives view_tree (typed_task script.now task.now (take (length task.now.modules) (reads_in modules.now))) result }
{
    let own = first_modules(modules, task.modules.len());
    let known = Known {
        tasks: names,
        signals: script.signals().as_slice(),
        axes: task.axes,
    };
    match check_task(alloc, own.trees, &known) {
        Ok(tree) => Ok(tree),
        Err(fault) => Err(fault_refusal(&own, fault)),
    }
}

/// The names of the tasks.
fn names_in(alloc: Global, tasks: &[ScriptTask]) -> Result<Vec<NameText>, AllocError>
    ensures { IfOk result (λ names. names.items ≡ names_in tasks.now) }
{
    let mut names = Vec::new(alloc);
    for task in tasks {
        names.push(task.name.copy())?;
    }
    Ok(names)
}

/// The refusal for a fault of a task's modules.
fn fault_refusal(modules: &Modules<'_, '_>, fault: TypeFault) -> Refused
    requires { ArePaired modules.now }
    ensures { IsRuleRefusal (reads_in modules.now) fault result }
{
    match fault {
        TypeFault::Rule { module, at, rule } => rule_refusal(modules, module as usize, at, rule),
        TypeFault::Memory => Refused::Memory,
    }
}

/// The refusal for a rule of names and types at a byte of the module of this number, from 0.
fn rule_refusal(modules: &Modules<'_, '_>, number: usize, at: usize, rule: TypeRule) -> Refused
    requires { ArePaired modules.now }
    ensures { result ≡ rule_refusal (reads_in modules.now) number at rule }
{
    module_refusal(modules, number, at, ModuleRule::Type(rule))
}

/// The refusal for a fault of a cell.
fn cell_refusal(script: &Script, modules: &Modules<'_, '_>, fault: CellFault) -> Refused
    requires { ArePaired modules.now }
    ensures { IsCellRefusal script.now (reads_in modules.now) fault result }
{
    match fault {
        CellFault::Clash { task, module, at } => {
            let number = modules_before(script, task) + module as usize;
            rule_refusal(modules, number, at, TypeRule::PersType)
        }
        CellFault::Script { key, rule } => Refused::Script { key, rule },
        CellFault::Memory => Refused::Memory,
    }
}

/// How many modules the tasks before the one of this number have. A script has few tasks and few modules.
fn modules_before(script: &Script, number: u32) -> usize
    ensures is { result ≡ modules_before script.now.tasks number }
    ensures few { result ≤ MOST_MODULE_FILES }
{
    let _steps = script.steps();
    let tasks = script.tasks().as_slice();
    let number = tasks.len().min(number as usize);
    let mut before = 0;
    for k in 0..number {
        before += tasks[k].modules.len();
    }
    before
}
