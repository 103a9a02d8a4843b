//! The lines of a traced run.

ghost use Rattle.std.specs.Prelude.{◌≡◌, ◌≤◌, ◌++◌, [], ◌∷◌, All, List, length, map, slice_index_or};
ghost use Rattle.rapid_limits.specs.declared.TheConstants.{LONGEST_FILE_NAME};
ghost use Rattle.typed_trees.specs.Plain.{TypedTree};
ghost use Rattle.stack_code.specs.Compiled.{compiled};
ghost use Rattle.task_code.specs.Asking.{CodeAsks};
ghost use Rattle.task_code.specs.Live.{CodeFits};
ghost use Rattle.code_laws.specs.Checked.{IsChecked};
ghost use Rattle.cell_meaning.specs.Asking.{with_inputs};
ghost use Rattle.cell_meaning.specs.Fates.{fates_after};
ghost use Rattle.cell_meaning.specs.Histories.{IsLegal};
ghost use Rattle.cell_crew.specs.Courses.{SuitTasks};
ghost use Rattle.cell_crew.specs.Crew.{AskAsPrograms};
ghost use Rattle.cell_crew.specs.UnderWay.{AreUnderWay};
ghost use Rattle.task_machine.specs.MachineData.{request_of};
ghost use Rattle.task_machine.specs.Standing.{StandsFor};
ghost use Rattle.history_text.specs.Lines.{fate_lines};
ghost use Rattle.state_text.specs.Seen.{view_sources};
ghost use Rattle.state_text.specs.TraceLines.{no_sources, trace_line, trace_lines};
ghost use Rattle.state_lines.specs.Sources.{sources_in, view_modules};
ghost use Rattle.cell_loading.specs.Loaded.{bytes_of, AreShort, IsWithin};
ghost use Rattle.sink_lines.specs.Printed.{sunk};
ghost use Rattle.sink_lines.specs.Written.{Writes};

use crate::state::{after_first, first_of};
use arrayvec::ArrayString;
use cell_core::Core;
use cell_loading::ModuleTexts;
use cell_meaning::Askers;
use cell_state::{Traced, code_places_are_tree_places, trace_event};
use history_text::{Names, names_of};
use outside::{Failed, Sink};
use rapid_model::ScriptTask;
use run_lines::print_fates;
use sink_lines::write_all;
use state_text::{Sources, write_trace};
use task_machine::Machine;

/// Prints each event of a core's history with its place, and then the fate of each task. The machines have asked their
/// first requests. Takes no memory.
pub fn print_trace<A: Askers, O: Sink>(
    out: &mut O,
    core: &Core,
    machines: &mut [Machine],
    modules: &Option<ModuleTexts>,
) -> Result<(), Failed>
    requires one_each { length machines.old ≡ length core.now.cell.tasks }
    requires programs { AskAsPrograms CodeFits CodeAsks A.asks (map (λ m. m.code) machines.old) }
    requires suit { SuitTasks CodeFits CodeAsks core.now.cell (map (λ m. m.code) machines.old) }
    requires legal { IsLegal (with_inputs A.asks core.now.cell) core.now.cell core.now.history }
    requires under_way { AreUnderWay StandsFor request_of machines.old [] }
    requires short { AreShort modules.now }
    ensures { (trees : List TypedTree) → map (λ m. m.code) machines.old ≡ map compiled trees → All IsChecked trees → Writes (trace_lines core.now.cell.tasks trees (view_modules modules.now) core.now.history ++ fate_lines core.now.cell.tasks (fates_after core.now.cell core.now.history (length core.now.cell.tasks))) result (sunk O.told O.calls O.faults out.old out.new) }
{
    print_events::<A, O>(out, core, machines, modules)?;
    print_fates(out, core)
}

/// Prints the lines of the events.
fn print_events<A: Askers, O: Sink>(
    out: &mut O,
    core: &Core,
    machines: &mut [Machine],
    modules: &Option<ModuleTexts>,
) -> Result<(), Failed>
    requires one_each { length machines.old ≡ length core.now.cell.tasks }
    requires programs { AskAsPrograms CodeFits CodeAsks A.asks (map (λ m. m.code) machines.old) }
    requires suit { SuitTasks CodeFits CodeAsks core.now.cell (map (λ m. m.code) machines.old) }
    requires legal { IsLegal (with_inputs A.asks core.now.cell) core.now.cell core.now.history }
    requires under_way { AreUnderWay StandsFor request_of machines.old [] }
    requires short { AreShort modules.now }
    ensures { (trees : List TypedTree) → map (λ m. m.code) machines.old ≡ map compiled trees → All IsChecked trees → Writes (trace_lines core.now.cell.tasks trees (view_modules modules.now) core.now.history) result (sunk O.told O.calls O.faults out.old out.new) }
{
    code_places_are_tree_places::<A>();
    let names = names_of(core.cell());
    for k in 0..core.len() {
        let traced = trace_event::<A>(core, machines, k);
        print_traced(out, &names, modules, &traced)?;
    }
    Ok(())
}

/// Prints the line of an event.
fn print_traced<O: Sink>(
    out: &mut O,
    names: &Names<'_>,
    modules: &Option<ModuleTexts>,
    traced: &Traced,
) -> Result<(), Failed>
    requires { AreShort modules.now }
    ensures { Writes (trace_line names.now.tasks.now (slice_index_or (view_modules modules.now) traced.now.event.actor no_sources) traced.now.place traced.now.event ∷ []) result (sunk O.told O.calls O.faults out.old out.new) }
{
    let sources = sources_of(modules, traced.event.actor as usize);
    let mut line = ArrayString::new();
    write_trace(names, &sources, traced.place, &traced.event, &mut line);
    write_all(out, line.as_str().as_bytes())
}

/// The modules of an actor; the input script has none.
fn sources_of(modules: &Option<ModuleTexts>, actor: usize) -> Sources<'_>
    requires { AreShort modules.now }
    ensures sources { view_sources result ≡ slice_index_or (view_modules modules.now) actor no_sources }
    ensures files { All (λ file. length file ≤ LONGEST_FILE_NAME) result.files.now }
    ensures texts { All IsWithin result.texts.now }
{
    match modules {
        Some(modules) => {
            // A script is within its limits.
            let _steps = modules.script.steps();
            let tasks = modules.script.tasks().as_slice();
            sources_at(tasks, modules.texts.as_slice(), actor)
        }
        None => Sources {
            files: &[],
            texts: &[],
        },
    }
}

/// The modules of a task, by its number from 0. The texts are those of the modules of these tasks.
fn sources_at<'a>(tasks: &'a [ScriptTask], texts: &'a [Vec<u8>], number: usize) -> Sources<'a>
    requires files { All (λ task. All (λ file. length file ≤ LONGEST_FILE_NAME) task.modules) tasks.now }
    requires texts { All IsWithin texts.now }
    ensures sources { view_sources result ≡ slice_index_or (sources_in tasks.now (bytes_of texts.now)) number no_sources }
    ensures files { All (λ file. length file ≤ LONGEST_FILE_NAME) result.files.now }
    ensures texts { All IsWithin result.texts.now }
{
    let mut rest = texts;
    for (k, task) in tasks.iter().enumerate() {
        let own = task.modules.len();
        if k == number {
            return Sources {
                files: task.modules.as_slice(),
                texts: first_of(rest, own),
            };
        }
        rest = after_first(rest, own);
    }
    Sources {
        files: &[],
        texts: &[],
    }
}
