ghost use Rattle.std.specs.Prelude.{◌≡◌, []};
ghost use Rattle.cell_gate.specs.Hands.{HasTaken, IsBetweenCalls, IsPlaceOf, IsSameCaller, IsSamePlace, MaySettle};
ghost use Rattle.cell_gate.specs.Views.{after_count, after_give};

use crate::backoff::Backoff;
use crate::boxed_core::BoxedCore;
use crate::rule::{Give, Place, Take, Top};
use crate::steps::{await_turn, count, put};
use std::sync::Wait;

/// An actor at the gate's table.
#[derive(Drop)]
pub struct Caller {
    pub place: Place,
    pub actor: u32,
    /// The number of events that it has seen.
    pub len: u32,
    /// Its pauses since its last event.
    pub backoff: Backoff,
}

impl Caller {
    /// Waits for the turn, takes it, and takes the core out of its slot.
    pub(crate) fn take<R: Wait>(&mut self, rt: &R, top: &Top) -> BoxedCore
        requires place { IsPlaceOf top.now.table_id self.old.place }
        requires between { IsBetweenCalls self.old }
        ensures same { IsSameCaller self.old self.new }
        ensures taken { HasTaken self.old.place.me result self.new.place.me }
    {
        let turn = u64::from(self.actor) + 1;
        for _ in rt.forever() {
            let found = top.compare_exchange::<Take>(&mut self.place, 0, 0, turn);
            if found == 0 {
                return top.exchange(&mut self.place, 0, None).unwrap();
            }
            await_turn(rt, top);
        }
        unreachable!()
    }

    /// Puts the core back, counts its new event if it gained one, and gives the turn on.
    pub(crate) fn settle(&mut self, top: &Top, core: BoxedCore, grew: bool)
        requires place { IsPlaceOf top.now.table_id self.old.place }
        requires may { MaySettle self.old core grew }
        ensures same { IsSamePlace self.old.place self.new.place }
        ensures actor { self.new.actor ≡ self.old.actor }
        ensures me { self.new.place.me ≡ (after_give (after_count self.old.place.me.0 core.history), []) }
        ensures between { IsBetweenCalls self.new }
    {
        self.len = core.len();
        self.backoff = self.backoff.until(grew);
        put(top, &mut self.place, core);
        count(top, &mut self.place, grew);
        top.swap::<Give>(&mut self.place, 0, 0);
    }
}
