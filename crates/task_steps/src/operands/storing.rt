//! Operations that read and write data: the task's own silently, persistents by a request.

ghost use Rattle.std.specs.Prelude.{◌≡◌, ◌≢◌, ℤ, Some, IfSome, slice_get};
ghost use Rattle.std.specs.Option.{option_and_then, option_copied, option_map};
ghost use Rattle.rapid_model.specs.declared.value.Value.TheVariants as values;
ghost use Rattle.typed_trees.specs.declared.datum.Datum.TheVariants.{Place, Plain};
ghost use Rattle.typed_trees.specs.declared.datum.Lvalue.{Lvalue};
ghost use Rattle.typed_trees.specs.declared.datum.Root.TheVariants as roots;
ghost use Rattle.task_code.specs.Leads.{Runs};
ghost use Rattle.rapid_meaning.specs.Data.{datum_at, put_at};
ghost use Rattle.rapid_meaning.specs.Places.{load, part_in, put_in, store, store_at};
ghost use Rattle.stack_code.specs.CodeData.{CodeData};
ghost use Rattle.stack_code.specs.Steps.{Here, act, does, pushes};
ghost use Rattle.stack_code.specs.declared.op.Op.TheVariants as ops;
ghost use Rattle.task_steps.specs.Alike.{Goes, Turns, with_stack};
ghost use Rattle.task_steps.specs.Doing.{came, here_of};
ghost use Rattle.task_steps.specs.Own.{IsNumAt, IsOwn};
ghost use Rattle.task_steps.specs.Seen.{room_of};
ghost use Rattle.task_steps.specs.declared.steps.done.Done.TheVariants as dones;
ghost use Rattle.task_steps.specs.Phases as phases;
ghost use Rattle.task_steps.specs.declared.steps.way.Way.TheVariants as ways;

use crate::operands::parts::{part_in, put_in};
use crate::requests::pending::Pending;
use crate::steps::done::Done;
use crate::steps::way::Way;
use crate::task::Task;
use machine_stacks::Held;
use rapid_model::{PartName, Path, Request};
use rapid_num::Num;
use std::mem;
use task_code::Code;
use typed_trees::{Lvalue, Root};

/// The part of a datum, if there is one.
fn part_of(name: PartName, held: Option<&Held>) -> Option<Held>
    ensures { result ≡ option_and_then (part_in name) (option_copied held.entry) }
{
    match held {
        Some(held) => part_in(name, held),
        None => None,
    }
}

/// Pushes a datum, if there is one.
fn loaded(held: Option<Held>) -> Option<Done>
    ensures { result ≡ option_map dones.Push held }
{
    match held {
        Some(held) => Some(Done::Push(held)),
        None => None,
    }
}

/// Asks to write a value to a persistent. None if the datum is no value.
fn written(pers: u32, index: u16, part: PartName, new: &Held) -> Option<Done>
    ensures { (h : Here) → does h h.conf.stack (store_at (roots.Pers pers index) part new.now) ≡ came h result }
{
    match new.value() {
        Some(value) => Some(Done::Ask {
            request: Request::WriteP {
                pers,
                path: Path { index, part },
                value: value.copy(),
            },
            then: Pending::Confirmed,
        }),
        None => None,
    }
}

impl Task {
    /// The datum at a place of the task's own, if it is there.
    pub(crate) fn own_part(&self, place: Lvalue) -> Option<Held>
        ensures { result ≡ option_and_then (part_in place.part) (datum_at place.root self.now.data') }
    {
        match place.root {
            Root::Slot(slot) => part_of(place.part, self.slots.get(slot as usize)),
            Root::Frame { frame, at } => match self.frames.get(frame as usize, at as usize) {
                Some(held) => part_in(place.part, &held),
                None => None,
            },
            Root::Pers { .. } => None,
        }
    }

    /// Pushes the datum at a place.
    pub(crate) fn load_at(&self, place: Lvalue) -> Option<Done>
        ensures { (code : CodeData) → Turns code (pushes (here_of code self.now.conf) self.now.conf.stack (λ x. x) (load place)) self.now.data' result self.now }
    {
        match place.root {
            Root::Slot(_) => loaded(self.own_part(place)),
            Root::Frame { .. } => loaded(self.own_part(place)),
            Root::Pers { pers, index } => {
                let part = place.part;
                Some(Done::Ask {
                    request: Request::ReadP {
                        pers,
                        path: Path { index, part },
                    },
                    then: Pending::Read,
                })
            }
        }
    }

    /// Writes a datum at a place of the task's own data; the other parts stay. None if the place is not there or holds
    /// another form of data, and then nothing changes.
    pub(crate) fn put_own(&mut self, place: Lvalue, new: &Held) -> Option<()>
        ensures phase { self.new.phase ≡ self.old.phase }
        ensures room { self.new.room ≡ self.old.room }
        ensures conf { self.new.conf ≡ self.old.conf }
        ensures data { option_map (λ put. self.new.data') result ≡ option_map (λ x. put_at place.root x self.old.data') (option_and_then (put_in place.part new.now) (datum_at place.root self.old.data')) }
    {
        match place.root {
            Root::Slot(slot) => self.put_in_slot(slot, place.part, new),
            Root::Frame { frame, at } => self.put_in_frame(frame, at, place.part, new),
            Root::Pers { .. } => None,
        }
    }

    /// Writes a datum of the modules.
    fn put_in_slot(&mut self, slot: u32, name: PartName, new: &Held) -> Option<()>
        ensures phase { self.new.phase ≡ self.old.phase }
        ensures room { self.new.room ≡ self.old.room }
        ensures conf { self.new.conf ≡ self.old.conf }
        ensures data { option_map (λ put. self.new.data') result ≡ option_map (λ x. put_at (roots.Slot slot) x self.old.data') (option_and_then (put_in name new.now) (datum_at (roots.Slot slot) self.old.data')) }
    {
        let old = self.slots.get(slot as usize)?;
        let held = put_in(name, new, old)?;
        drop(mem::replace(&mut self.slots[slot as usize], held));
        Some(())
    }

    /// Writes a datum of a frame.
    fn put_in_frame(&mut self, frame: u8, at: u32, name: PartName, new: &Held) -> Option<()>
        ensures phase { self.new.phase ≡ self.old.phase }
        ensures room { self.new.room ≡ self.old.room }
        ensures conf { self.new.conf ≡ self.old.conf }
        ensures data { option_map (λ put. self.new.data') result ≡ option_map (λ x. put_at (roots.Frame frame at) x self.old.data') (option_and_then (put_in name new.now) (datum_at (roots.Frame frame at) self.old.data')) }
    {
        let old = self.frames.get(frame as usize, at as usize)?;
        let held = put_in(name, new, &old)?;
        self.frames.put(frame as usize, at as usize, held);
        Some(())
    }

    /// Stores a datum at a place; the other parts stay.
    pub(crate) fn store_at(&mut self, place: Lvalue, new: &Held) -> Option<Done>
        ensures phase { self.new.phase ≡ self.old.phase }
        ensures room { self.new.room ≡ self.old.room }
        ensures conf { self.new.conf ≡ self.old.conf }
        ensures turns { (code : CodeData) → Turns code (does (here_of code self.old.conf) self.old.conf.stack (store place new.now)) self.old.data' result self.new }
    {
        match place.root {
            Root::Slot(_) => self.store_own(place, new),
            Root::Frame { .. } => self.store_own(place, new),
            Root::Pers { pers, index } => written(pers, index, place.part, new),
        }
    }

    /// Stores a datum at a place of the task's own data.
    fn store_own(&mut self, place: Lvalue, new: &Held) -> Option<Done>
        requires { IsOwn place.root }
        ensures phase { self.new.phase ≡ self.old.phase }
        ensures room { self.new.room ≡ self.old.room }
        ensures conf { self.new.conf ≡ self.old.conf }
        ensures turns { (code : CodeData) → Turns code (does (here_of code self.old.conf) self.old.conf.stack (store place new.now)) self.old.data' result self.new }
    {
        self.put_own(place, new)?;
        Some(Done::Next)
    }

    /// The num at the place on top, if the place is all of a datum of the task's own.
    fn num_there(&self) -> Option<Num>
        ensures { IfSome result (λ n. (place : Lvalue) × (slice_get self.now.conf.stack 0 ≡ Some (Place place)) × IsNumAt self.now.data' place n) }
    {
        let place = self.place_at(0)?;
        self.own_num(place)
    }

    /// Pushes the datum at the place on top. A num replaces the place on the stack.
    pub(crate) fn load(&mut self, code: &Code) -> Option<Way>
        requires going { self.old.phase ≡ phases.Going }
        requires room { self.old.room ≡ room_of code.now }
        requires runs { Runs code.now (act (here_of code.now self.old.conf) ops.Load) self.old.data' }
        ensures room { self.new.room ≡ self.old.room }
        ensures going { result ≢ Some ways.Stay → self.new.phase ≡ phases.Going }
        ensures begun { self.new.phase ≢ phases.New }
        ensures goes { Goes code.now (act (here_of code.now self.old.conf) ops.Load) self.old.data' result self.new }
    {
        match self.num_there() {
            Some(number) => {
                self.set_top_num(number);
                Some(Way::Next)
            }
            None => self.load_other(code),
        }
    }

    /// The num on top and the place below it, if that is all of a num of the task's own data.
    fn num_for(&self) -> Option<(Num, Lvalue)>
        ensures { IfSome result (λ it. (slice_get self.now.conf.stack 0 ≡ Some (Plain (values.Num it.0))) × (slice_get self.now.conf.stack 1 ≡ Some (Place it.1)) × (old : ℤ) × IsNumAt self.now.data' it.1 old) }
    {
        let number = self.num_at(0)?;
        let place = self.place_at(1)?;
        let _old = self.own_num(place)?;
        Some((number, place))
    }

    /// Stores the datum on top at the place below it. A num over a num is written in place.
    pub(crate) fn store(&mut self, code: &Code) -> Option<Way>
        requires going { self.old.phase ≡ phases.Going }
        requires room { self.old.room ≡ room_of code.now }
        requires runs { Runs code.now (act (here_of code.now self.old.conf) ops.Store) self.old.data' }
        ensures room { self.new.room ≡ self.old.room }
        ensures going { result ≢ Some ways.Stay → self.new.phase ≡ phases.Going }
        ensures begun { self.new.phase ≢ phases.New }
        ensures goes { Goes code.now (act (here_of code.now self.old.conf) ops.Store) self.old.data' result self.new }
    {
        match self.num_for() {
            Some((number, place)) => {
                self.put_num(place, number);
                self.drop_operand();
                self.drop_operand();
                Some(Way::Next)
            }
            None => self.store_other(code),
        }
    }

    /// Pushes the datum at the place on top.
    pub(crate) fn load_any(&mut self) -> Option<Done>
        ensures rest { self.new ≡ with_stack self.new.conf.stack self.old }
        ensures turns { (code : CodeData) → Turns code (act (here_of code self.old.conf) ops.Load) self.old.data' result self.new }
    {
        let place = self.pop_place()?;
        self.load_at(place)
    }

    /// Stores the datum on top at the place below it.
    pub(crate) fn store_any(&mut self) -> Option<Done>
        ensures phase { self.new.phase ≡ self.old.phase }
        ensures room { self.new.room ≡ self.old.room }
        ensures turns { (code : CodeData) → Turns code (act (here_of code self.old.conf) ops.Store) self.old.data' result self.new }
    {
        let new = self.pop_datum()?;
        let place = self.pop_place()?;
        self.store_at(place, &new)
    }
}
