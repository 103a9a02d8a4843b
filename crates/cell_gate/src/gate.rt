ghost use Rattle.std.specs.Prelude.{◌≡◌, ◌<◌, ◌≤◌, length, IsFalse, IsTrue};
ghost use Rattle.rapid_model.specs.Own.{is_held};
ghost use Rattle.cell_gate.specs.Calls.{MayAsk, IsSameHolder, ActedAs, RoseNow, RoseAs, FedNow};
ghost use Rattle.cell_gate.specs.Causes.{may_wait};

use crate::acted::Acted;
use crate::boxed_core::BoxedCore;
use crate::fed::Fed;
use crate::now::Now;
use crate::pass::Pass;
use crate::rose::Rose;
use crate::rule::Turns;
use crate::steps::wait_past;
use crate::view::View;
use atomic_table::Table;
use rapid_limits::MOST_TASKS;
use rapid_model::{Cell, Request};
use std::alloc::Global;
use std::marker::Model;
use std::sync::Wait;

/// A core that threads share, each by the passes that it has. Contracts see its cell, and which gate it is. A call with
/// a pass waits for its turn, then asks the core: the requests of all passes stand in one history, once for each call.
#[derive(Drop)]
pub struct Gate {
    pub(crate) table: Table<Option<BoxedCore>, View, Cell, Turns, Global>,
    /// The number of tasks of the cell.
    pub(crate) tasks: u32,
}

impl Model for Gate {
    ghost use Rattle.std.specs.Prelude.{◌≡◌, ◌≤◌, length};
    ghost use Rattle.cell_gate.specs.GateData.{GateData};
    ghost use Rattle.cell_gate.specs.Hands.{IsSized};
    ghost use Rattle.rapid_limits.specs.declared.TheConstants.{MOST_TASKS};

    ghost Value = { GateData };

    ghost view = { λ g. record { cell = g.table.shared.key; table = g.table.shared.table_id } };

    ghost invariant = { λ g. IsSized g.table.shared.table_id × (g.tasks ≡ length g.table.shared.key.tasks) × (g.tasks ≤ MOST_TASKS) };
}

impl Gate {
    /// The number of tasks of the cell.
    pub fn task_count(&self) -> u32
        ensures same { result ≡ length self.now.cell.tasks }
        ensures few { result ≤ MOST_TASKS }
    {
        self.tasks
    }

    /// Makes a request that the pass's actor may make, other than a Rise or an Input. Done has the core's answer after
    /// the history at that moment, and the call is one more event of it. Returns Spent, and adds no event, exactly if
    /// the request would be counted and no steps are left.
    pub fn act<R: Wait>(&self, rt: &R, pass: &mut Pass, request: &Request) -> Acted
        requires gate { pass.old.gate ≡ self.now }
        requires may { MayAsk pass.old request.now }
        requires plain { IsFalse (may_wait request.now) }
        ensures same { IsSameHolder pass.old pass.new }
        ensures acted { ActedAs pass.old request.now result pass.new }
    {
        let top = &self.table.shared;
        let actor = pass.caller.actor;
        let mut core = pass.caller.take(rt, top);
        let acted = core.try_act(actor, request);
        let grew = acted.is_done();
        pass.caller.settle(top, core, grew);
        acted
    }

    /// Lets the pass's task, which is held, go on if it can now: Spent exactly if a task has not ended and no steps are
    /// left; otherwise Woken exactly if the task can rise; otherwise Stalled exactly if the cell is stalled; otherwise
    /// NotYet. Only Woken adds an event, the Rise.
    pub fn rise_now<R: Wait>(&self, rt: &R, pass: &mut Pass) -> Now
        requires gate { pass.old.gate ≡ self.now }
        requires task { pass.old.actor < length pass.old.gate.cell.tasks }
        requires held { IsTrue (is_held pass.old.mine) }
        ensures same { IsSameHolder pass.old pass.new }
        ensures rose { RoseNow pass.old result pass.new }
    {
        let top = &self.table.shared;
        let task = pass.caller.actor;
        let mut core = pass.caller.take(rt, top);
        let now = core.try_rise(task);
        let grew = now.is_woken();
        pass.caller.settle(top, core, grew);
        now
    }

    /// Waits until the pass's task, which is held, goes on, nothing will wake it, or no steps are left, each as in
    /// `rise_now`. No crate of the program calls it: it is for a thread that has only this task.
    pub fn rise<R: Wait>(&self, rt: &R, pass: &mut Pass) -> Rose
        requires gate { pass.old.gate ≡ self.now }
        requires task { pass.old.actor < length pass.old.gate.cell.tasks }
        requires held { IsTrue (is_held pass.old.mine) }
        ensures same { IsSameHolder pass.old pass.new }
        ensures rose { RoseAs pass.old result pass.new }
    {
        for _ in rt.forever() {
            match self.rise_now(rt, pass) {
                Now::Woken => return Rose::Woken,
                Now::Stalled => return Rose::Stalled,
                Now::Spent => return Rose::Spent,
                Now::NotYet => self.rest(rt, pass),
            }
        }
        unreachable!()
    }

    /// Does the next step of the input script if it is open, with the script's pass. Returns Over exactly if none is
    /// left, all tasks have ended, some task has not ended and no steps are left, or the cell is stalled; otherwise
    /// Given exactly if the gate of the next step holds; otherwise NotYet. Only Given adds an event, the Input.
    pub fn feed_now<R: Wait>(&self, rt: &R, pass: &mut Pass) -> Fed
        requires gate { pass.old.gate ≡ self.now }
        requires script { pass.old.actor ≡ length pass.old.gate.cell.tasks }
        ensures same { IsSameHolder pass.old pass.new }
        ensures fed { FedNow pass.old result pass.new }
    {
        let top = &self.table.shared;
        let mut core = pass.caller.take(rt, top);
        let fed = core.try_feed();
        let grew = fed.is_given();
        pass.caller.settle(top, core, grew);
        fed
    }

    /// Waits until the history is longer than the pass last saw.
    pub fn rest<R: Wait>(&self, rt: &R, pass: &mut Pass)
        requires gate { pass.old.gate ≡ self.now }
        ensures { pass.new ≡ pass.old }
    {
        let top = &self.table.shared;
        let caller = &mut pass.caller;
        wait_past(rt, top, &mut caller.place, caller.len, &mut caller.backoff);
    }
}
