//! A whole task.

ghost use Rattle.std.specs.Prelude.{◌≡◌, Ok, IfOk, IsTrue, map};
ghost use Rattle.raw_trees.specs.Views.{view_module};
ghost use Rattle.typed_trees.specs.Sound.{has_sound_pers};
ghost use Rattle.typed_trees.specs.Views.{view_routine, view_tree};
ghost use Rattle.rule_checks.specs.TypeChecks.{Gives};
ghost use Rattle.named_data.specs.Views.{view_site};
ghost use Rattle.decl_types.specs.Views.{view_progress};
ghost use Rattle.task_types.specs.Task;
ghost use Rattle.task_types.specs.Task.{task_of};

use crate::bodies::bodies;
use crate::main_routine::{main_among, main_or};
use crate::meetings::meeting_names;
use crate::names::copied_names;
use data_scopes::{Known, Scopes};
use decl_types::{Progress, data_of};
use named_data::{Site, must, number_of};
use rapid_limits::MOST_VALUES;
use raw_trees::RawModule;
use rule_checks::{Spot, TypeFault, TypeRule};
use std::alloc::Global;
use std::mem;
use typed_trees::{Routine, Tree};

/// The first byte of the first module.
fn top(alloc: Global, scopes: &Scopes) -> Site<'_>
    ensures { view_site result ≡ Task.top scopes.now }
{
    Site {
        alloc,
        scopes,
        spot: Spot {
            module: 0,
            routine: None,
            within: None,
            at: 0,
        },
    }
}

/// The tree of modules with these data and routines. Fails only if an allocation fails.
fn tree_of(
    alloc: Global,
    modules: &[RawModule<'_>],
    known: &Known<'_>,
    progress: Progress,
    routines: Vec<Routine>,
    main: u32,
) -> Result<Tree, TypeFault>
    ensures { Gives view_tree result (Ok (Task.tree_of (map view_module modules.now) known.now.tasks.now known.now.axes (view_progress progress) (map view_routine routines.items) main)) }
{
    let count = number_of(modules.len())?;
    let tasks = copied_names(alloc, known.tasks)?;
    let meetings = meeting_names(alloc, &progress.slots)?;
    Ok(Tree {
        modules: count,
        tasks,
        slots: progress.slots,
        pers: progress.pers,
        meetings,
        routines,
        main,
        pers_of: Vec::new(alloc),
        meeting_of: Vec::new(alloc),
        axes: known.axes,
    })
}

/// The typed tree of a task's modules, or the first broken rule. The rules are checked in this order:
///
/// 1. those of declared names and of their types' names, over all modules (RAPID Kernel, declarations and scope
///    rules);
/// 2. those of lengths and initial values, over all modules (RAPID Kernel, data declarations and constant
///    expressions);
/// 3. those of the routines' statements, over all modules; an ERROR part comes after the statements of its routine
///    (RAPID Kernel, statements and expressions);
/// 4. `NoMain`, if no routine is a main (RAPID Overview, modules), at the first byte of the first module;
/// 5. `DataRange`, if the modules' data have more than 20,000 values, counting each element of an array, at the same
///    byte.
///
/// The error may also be out of memory, for example for a name of more than 32 characters.
///
/// Each persistent of the tree has a type with values and, if it is an array, 1 to 1000 elements; if its declaration
/// gives values, there is one of its type for each element.
pub fn check_task(
    alloc: Global,
    modules: &[RawModule<'_>],
    known: &Known<'_>,
) -> Result<Tree, TypeFault>
    ensures gives { Gives view_tree result (task_of (map view_module modules.now) known.now.tasks.now known.now.signals.now known.now.axes) }
    ensures sound { IfOk result (λ tree. IsTrue (has_sound_pers (view_tree tree))) }
{
    task_tree(alloc, modules, known)
}

fn task_tree(alloc: Global, modules: &[RawModule<'_>], known: &Known<'_>) -> Result<Tree, TypeFault>
    ensures { Gives view_tree result (task_of (map view_module modules.now) known.now.tasks.now known.now.signals.now known.now.axes) }
{
    let scopes = Scopes::new(alloc, modules, known)?;
    let mut progress = data_of(alloc, modules, scopes)?;
    let locals = mem::replace(&mut progress.locals, Vec::new(alloc));
    let routines = bodies(alloc, &progress.scopes, modules, locals)?;
    let main = main_among(modules)?;
    let site = top(alloc, &progress.scopes);
    let main = main_or(&site, main)?;
    must(
        &site,
        progress.values <= MOST_VALUES,
        0,
        TypeRule::DataRange,
    )?;
    tree_of(alloc, modules, known, progress, routines, main)
}
