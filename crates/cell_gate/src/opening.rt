//! Opening a gate.
ghost use Rattle.std.specs.Prelude.{◌≡◌, ◌+◌, ◌<◌, ◌≤◌, [], length, IfOk, IfErr, vec_len, vec_capacity};
ghost use Rattle.cell_gate.specs.Calls.{fresh_pass, fresh_passes};
ghost use Rattle.cell_gate.specs.Hands.{IsNew, IsPlaceOf, IsSamePlace, gate_of};
ghost use Rattle.cell_gate.specs.Views.{first_view, dealer};

use crate::backoff::Backoff;
use crate::boxed_core::BoxedCore;
use crate::caller::Caller;
use crate::gate::Gate;
use crate::pass::Pass;
use crate::rule::{Deal, Give, Open, Place, Top, Turns};
use crate::steps::put;
use crate::view::View;
use atomic_table::Table;
use cell_core::Core;
use rapid_limits::MOST_TASKS;
use rapid_model::Cell;
use std::alloc::Global;

/// Opens a gate to a core whose history is empty: the gate, a pass for each task in script order, and then the input
/// script's. Fails only if an allocation fails, and then returns the core. No other call of a gate allocates.
pub fn open_gate(alloc: Global, core: Core) -> Result<(Gate, Vec<Pass>), Core>
    requires { core.history ≡ [] }
    ensures ok { IfOk result (λ r. (r.0.cell ≡ core.cell) × (r.1.items ≡ fresh_passes r.0 0 (length core.cell.tasks + 1))) }
    ensures err { IfErr result (λ back. back ≡ core) }
{
    let tasks = core.task_count();
    let Ok(mut passes) = Vec::with_capacity(alloc, tasks as usize + 1) else {
        return Err(core);
    };
    let Ok((table, mut seat)) = Table::<Option<BoxedCore>, View, Cell, Turns, Global>::vacant(
        alloc,
        &[1, 0],
        1,
        core.cell(),
    ) else {
        return Err(core);
    };
    let core = match BoxedCore::new(alloc, core) {
        Ok(core) => core,
        Err(core) => return Err(core),
    };
    install(&table.shared, &mut seat, core);
    deal(&table.shared, &mut seat, tasks, &mut passes);
    let first = new_pass(seat, 0);
    // There is room.
    let Ok(()) = passes.insert(0, first) else {
        unreachable!();
    };
    Ok((Gate { table, tasks }, passes))
}

/// Puts the core, whose history is empty, into the slot of a new table, and gives the first turn on.
fn install(top: &Top, place: &mut Place, core: BoxedCore)
    requires place { IsPlaceOf top.now.table_id place.old }
    requires first { place.old.me ≡ (first_view core.cell, []) }
    requires no_events { core.history ≡ [] }
    ensures same { IsSamePlace place.old place.new }
    ensures me { place.new.me ≡ (dealer core.cell 1, []) }
{
    top.load::<Open>(place, 0);
    put(top, place, core);
    top.swap::<Give>(place, 0, 0);
}

/// Makes the passes of this many actors after the first.
fn deal(top: &Top, place: &mut Place, tasks: u32, passes: &mut Vec<Pass>)
    requires place { IsPlaceOf top.now.table_id place.old }
    requires first { place.old.me ≡ (dealer place.old.me.0.cell 1, []) }
    requires tasks { tasks ≡ length place.old.me.0.cell.tasks }
    requires few { tasks ≤ MOST_TASKS }
    requires none { passes.old.items ≡ [] }
    requires room { tasks < vec_capacity passes.old }
    ensures same { IsSamePlace place.old place.new }
    ensures me { place.new.me ≡ (dealer place.old.me.0.cell (tasks + 1), []) }
    ensures passes { passes.new.items ≡ fresh_passes (gate_of place.old) 1 tasks }
    ensures len { vec_len passes.new ≡ tasks }
    ensures room { vec_capacity passes.new ≡ vec_capacity passes.old }
{
    for before in 0..tasks {
        let seat = top.split_seat::<Deal>(place);
        passes.push_reserved(new_pass(seat, before + 1));
    }
}

/// The pass of an actor that has seen and done nothing.
fn new_pass(place: Place, actor: u32) -> Pass
    requires { IsNew actor place.me }
    ensures { result ≡ fresh_pass (gate_of place) actor }
{
    Pass {
        caller: Caller {
            place,
            actor,
            len: 0,
            backoff: Backoff::new(),
        },
    }
}
