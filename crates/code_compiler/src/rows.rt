//! Rows of routines.

ghost use Rattle.std.specs.Prelude.{◌≡◌, ◌+◌, length};
ghost use Rattle.rapid_meaning.specs.Answering;
ghost use Rattle.rapid_meaning.specs.Frames.{first_values};
ghost use Rattle.stack_code.specs.Compiled;
ghost use Rattle.typed_trees.specs.Views.{view_routine};

use rapid_model::RoutineKind;
use stack_code::RoutineRow;
use typed_trees::Routine;

/// The row of a routine that begins at `entry` and has `values` first values, from number `first` on.
pub(crate) fn routine_row(routine: &Routine, entry: u32, first: u32, values: u32) -> RoutineRow
    requires { values ≡ length (first_values (view_routine routine.now)) }
    ensures { result ≡ Compiled.routine_row entry first (view_routine routine.now) }
{
    let args = routine.params.len();
    RoutineRow {
        entry,
        args: counted(args),
        values: counted(args.saturating_add(values as usize)),
        trap: is_trap(routine.kind),
        result: gives_result(routine.kind),
        first,
    }
}

/// A number of data as a u16; 65,535 if there are more.
fn counted(count: usize) -> u16
    ensures { result ≡ Compiled.counted count }
{
    match u16::try_from(count) {
        Ok(few) => few,
        Err(_) => u16::MAX,
    }
}

/// Whether a routine is a trap.
fn is_trap(kind: RoutineKind) -> bool
    ensures { result ≡ Answering.is_trap_kind kind }
{
    match kind {
        RoutineKind::Trap => true,
        RoutineKind::Proc | RoutineKind::Func => false,
    }
}

/// Whether a routine returns a value.
fn gives_result(kind: RoutineKind) -> bool
    ensures { result ≡ Compiled.gives_result kind }
{
    match kind {
        RoutineKind::Func => true,
        RoutineKind::Proc | RoutineKind::Trap => false,
    }
}
