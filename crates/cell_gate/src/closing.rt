//! Closing a gate.
ghost use Rattle.std.specs.Prelude.{◌≡◌, All, Contains};
ghost use Rattle.cell_core.specs.Soundness.{IsSound};
ghost use Rattle.cell_gate.specs.Calls.{AreAllPasses, AreOfHistory};
ghost use Rattle.cell_gate.specs.Hands.{IsPlaceOf, IsSamePlace, IsIdle, part_told};
ghost use Rattle.cell_gate.specs.Views.{parts};

use crate::caller::Caller;
use crate::gate::Gate;
use crate::pass::Pass;
use crate::rule::{Gather, Place, Top};
use cell_core::Core;

impl Gate {
    /// Closes the gate with all its passes, and returns its core. Each pass has seen a prefix of the core's history,
    /// and has its actor's events in it; each event was served after those before it.
    pub fn close(self, mut passes: Vec<Pass>) -> Core
        requires { AreAllPasses self passes.items }
        ensures cell { result.cell ≡ self.cell }
        ensures tell { AreOfHistory passes.items result.history }
        ensures sound { IsSound result.cell result.history }
    {
        let Gate { table, .. } = self;
        // There is a pass for each task and the input script.
        let Some(first) = passes.pop() else {
            unreachable!();
        };
        let Pass { caller } = first;
        let Caller { mut place, .. } = caller;
        gather(&table.shared, &mut place, passes);
        let mut closed = table.close_with(place);
        let core = closed.take(0).unwrap();
        closed.free();
        let core = core.into_core();
        // Its contract states that the history is sound.
        let _events = core.len();
        core
    }
}

/// Merges the views of all passes into the place's.
fn gather(top: &Top, place: &mut Place, mut passes: Vec<Pass>)
    requires place { IsPlaceOf top.now.table_id place.old }
    requires idle { IsIdle place.old.me }
    requires table { All (λ p. p.gate.table ≡ top.now.table_id) passes.items }
    ensures same { IsSamePlace place.old place.new }
    ensures idle { IsIdle place.new.me }
    ensures all { All (λ p. Contains (parts place.new.me.0) (part_told p)) passes.items }
    ensures kept { All (λ part. Contains (parts place.new.me.0) part) (parts place.old.me.0) }
{
    while let Some(pass) = passes.pop() {
        let Pass { caller } = pass;
        let Caller { place: other, .. } = caller;
        top.join_seat::<Gather>(place, other);
    }
}
