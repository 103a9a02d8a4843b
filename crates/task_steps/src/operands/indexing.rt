//! Elements of arrays (RAPID Kernel, data references).
#![tactic(auto, unfolding(rapid_meaning::specs::Doings::after))]

ghost use Rattle.std.specs.Prelude.{◌≡◌, ◌+◌, ◌≤◌, Some, slice_get};
ghost use Rattle.std.specs.Option.{option_and_then, option_map};
ghost use Rattle.typed_trees.specs.declared.datum.Datum.TheVariants.{Place};
ghost use Rattle.rapid_meaning.specs.Data.{frame_at};
ghost use Rattle.rapid_meaning.specs.Places.{at_element, element_root, indexed, place_of_element, there_in};
ghost use Rattle.stack_code.specs.CodeData.{CodeData};
ghost use Rattle.stack_code.specs.Steps.{act, pushes};
ghost use Rattle.stack_code.specs.declared.op.Op.TheVariants as ops;
ghost use Rattle.task_steps.specs.Alike.{Turns, with_stack};
ghost use Rattle.task_steps.specs.Doing.{here_of};

use crate::operands::pushing::place_pushed;
use crate::steps::done::Done;
use crate::task::Task;
use function_values::num_of;
use rapid_model::{Fate, Fault, Value};
use rapid_values::whole_index;
use typed_trees::{Lvalue, Root};

impl Task {
    /// The place of the module datum `count` after another, if there is one.
    fn slot_behind(&self, slot: u32, count: u16) -> Option<u32>
        ensures { result ≡ option_map (λ held. slot + count) (slice_get self.now.data'.slots (slot + count)) }
    {
        let at = slot as usize + count as usize;
        match self.slots.get(at) {
            Some(_) => Some(at as u32),
            None => None,
        }
    }

    /// The place in a frame of the datum `count` after another, if there is one.
    fn own_behind(&self, frame: u8, at: u32, count: u16) -> Option<u32>
        ensures { result ≡ option_map (λ held. at + count) (option_and_then (λ f. slice_get f.values (at + count)) (frame_at self.now.data'.frames frame)) }
    {
        let at = at as usize + count as usize;
        if self.frames.has(frame as usize, at) {
            Some(at as u32)
        } else {
            None
        }
    }

    /// The place of an element, counted from 1, of the array that begins at a place. None if that is no datum of the
    /// task's own; persistents are the cell's.
    pub(crate) fn element(&self, place: Lvalue, number: u16) -> Option<Lvalue>
        requires { 1 ≤ number }
        ensures { result ≡ there_in self.now.data' (place_of_element place number) (element_root place.root number) }
    {
        let part = place.part;
        match place.root {
            Root::Slot(slot) => match self.slot_behind(slot, number - 1) {
                Some(slot) => Some(Lvalue {
                    root: Root::Slot(slot),
                    part,
                }),
                None => None,
            },
            Root::Frame { frame, at } => match self.own_behind(frame, at, number - 1) {
                Some(at) => Some(Lvalue {
                    root: Root::Frame { frame, at },
                    part,
                }),
                None => None,
            },
            Root::Pers { pers, .. } => Some(Lvalue {
                root: Root::Pers {
                    pers,
                    index: number,
                },
                part,
            }),
        }
    }

    /// Pushes the place of an element, counted from 1.
    fn element_pushed(&self, place: Lvalue, number: u16) -> Option<Done>
        requires { 1 ≤ number }
        ensures { (code : CodeData) → Turns code (pushes (here_of code self.now.conf) self.now.conf.stack Place (at_element place number)) self.now.data' result self.now }
    {
        match self.element(place, number) {
            Some(place) => place_pushed(place),
            None => None,
        }
    }

    /// Pushes the place of the element with an index, of an array of `len` elements that begins at a place.
    fn indexed(&self, len: u16, place: Lvalue, index: &Value) -> Option<Done>
        ensures { (code : CodeData) → Turns code (pushes (here_of code self.now.conf) self.now.conf.stack Place (indexed (Some len) place index.now)) self.now.data' result self.now }
    {
        let index = num_of(index)?;
        match whole_index(index, len) {
            Some(number) => self.element_pushed(place, number),
            None => Some(Done::End(Fate::Fault(Fault::IndexRange))),
        }
    }

    /// Narrows the place below the top, of an array of length `len`, to the element whose index is on top.
    pub(crate) fn index(&mut self, len: u16) -> Option<Done>
        ensures rest { self.new ≡ with_stack self.new.conf.stack self.old }
        ensures turns { (code : CodeData) → Turns code (act (here_of code self.old.conf) (ops.Index len)) self.old.data' result self.new }
    {
        let index = self.pop_value()?;
        let place = self.pop_place()?;
        self.indexed(len, place, &index)
    }
}
