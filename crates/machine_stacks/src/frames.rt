ghost use Rattle.std.specs.Prelude.{◌≡◌, ◌+◌, ◌-◌, ◌<◌, ◌≤◌, [], ◌∷◌, is_some, length, reverse, take, drop, slice_get, IfOk};
ghost use Rattle.std.specs.Option.{option_and_then};
ghost use Rattle.rapid_model.specs.declared.value.Value.TheVariants as values;
ghost use Rattle.typed_trees.specs.declared.datum.Datum.TheVariants.{Plain};
ghost use Rattle.rapid_meaning.specs.Data.{below_first, frame_at, put_in_frame, seen_in, values_in, with_seen};
ghost use Rattle.rapid_meaning.specs.Places.{place_in};
ghost use Rattle.machine_stacks.specs.Forms.{as_num};
ghost use Rattle.machine_stacks.specs.Starts.{frame_from};

use crate::first_values::append_firsts;
use crate::held::Held;
use crate::indexes::{datum_at, index_at, innermost_at, num_at, place_at, write_at, write_num_at};
use crate::mark::Mark;
use crate::operands::Operands;
use crate::run_start::RunStart;
use crate::words::Words;
use rapid_num::Num;
use stack_code::FirstRun;
use std::alloc::{AllocError, Global};
use std::marker::Model;
use typed_trees::Lvalue;

/// The data of a task's active routines. Contracts see their frames, the innermost first, and the room for values in
/// all and for frames.
#[derive(Debug, Drop)]
pub struct Frames {
    values: Words,
    marks: Vec<Mark>,
}

impl Model for Frames {
    ghost use Rattle.std.specs.Prelude.{length, map, reverse};
    ghost use Rattle.std.specs.Vec.{vec_capacity};
    ghost use Rattle.machine_stacks.specs.Cuts.{IsCut};
    ghost use Rattle.machine_stacks.specs.FrameStack.{FrameStack, bases_of, frames_in};

    ghost Value = { FrameStack };

    ghost view = { λ f. record { frames = frames_in f.values.items (reverse f.marks.items); room = f.values.room; depth = vec_capacity f.marks } };

    // The values of each frame begin where those of the frame below it end.
    ghost invariant = { λ f. IsCut (length f.values.items) (bases_of (reverse f.marks.items)) };
}

impl Frames {
    /// No frames, with room for `room` values in all and for `depth` frames. Fails only if an allocation fails.
    pub fn new(alloc: Global, room: usize, depth: usize) -> Result<Frames, AllocError>
        ensures { IfOk result (λ f. f ≡ record { frames = []; room = room; depth = depth }) }
    {
        let values = Words::new(alloc, room)?;
        let marks = Vec::with_capacity(alloc, depth)?;
        Ok(Frames { values, marks })
    }

    /// The number of values of all frames.
    pub fn values(&self) -> usize
        ensures { result ≡ values_in self.now.frames }
    {
        self.values.len()
    }

    /// The number of frames.
    pub fn count(&self) -> usize
        ensures { result ≡ length self.now.frames }
    {
        self.marks.len()
    }

    /// Begins a routine. The operands on top become its parameters, in the order in which they were pushed; copies of
    /// its own first values, from a start on, follow. Does not allocate; takes time proportional to the values.
    pub fn enter(
        &mut self,
        operands: &mut Operands,
        args: usize,
        firsts: &[FirstRun],
        start: RunStart,
        own: usize,
    )
        requires args { args ≤ length operands.old.top }
        requires depth { length self.old.frames < self.old.depth }
        requires room { let frame = frame_from firsts.now start (reverse (take args operands.old.top)) own in values_in self.old.frames + length frame.values ≤ self.old.room }
        ensures popped { operands.new ≡ record operands.old { top = drop args operands.old.top } }
        ensures entered { let frame = frame_from firsts.now start (reverse (take args operands.old.top)) own in self.new ≡ record self.old { frames = frame ∷ self.old.frames } }
    {
        let base = self.values.len();
        operands.move_to(args, &mut self.values);
        append_firsts(&mut self.values, firsts, start, own);
        self.marks.push_reserved(Mark { base, seen: 0 });
    }

    /// Drops the innermost frame, if there is one.
    pub fn leave(&mut self)
        ensures { self.new ≡ record self.old { frames = below_first self.old.frames } }
    {
        if let Some(mark) = self.marks.pop() {
            self.values.truncate(mark.base);
        }
    }

    /// The number of changes by others that the last Look of the innermost frame found; 0 without a frame.
    pub fn seen(&self) -> u32
        ensures { result ≡ seen_in self.now.frames }
    {
        match self.marks.last() {
            Some(mark) => mark.seen,
            None => 0,
        }
    }

    /// Records how many changes by others a Look of the innermost frame found.
    pub fn set_seen(&mut self, seen: u32)
        ensures { self.new ≡ record self.old { frames = with_seen seen self.old.frames } }
    {
        if let Some(mark) = self.marks.pop() {
            let base = mark.base;
            self.marks.push_reserved(Mark { base, seen });
        }
    }

    /// Whether a frame has a value, by the number of frames below it and its index in the frame.
    pub fn has(&self, frame: usize, at: usize) -> bool
        ensures { result ≡ is_some (option_and_then (λ f. slice_get f.values at) (frame_at self.now.frames frame)) }
    {
        index_at(self.values.len(), &self.marks, frame, at).is_some()
    }

    /// A value of a frame, by the number of frames below it and its index in the frame; none if there is none. Does not
    /// allocate.
    pub fn get(&self, frame: usize, at: usize) -> Option<Held>
        ensures { result ≡ option_and_then (λ f. slice_get f.values at) (frame_at self.now.frames frame) }
    {
        let index = index_at(self.values.len(), &self.marks, frame, at);
        datum_at(&self.values, index)
    }

    /// The num of a frame, by the number of frames below it and its index in the frame; none if there is none.
    pub fn num(&self, frame: usize, at: usize) -> Option<Num>
        ensures { result ≡ option_and_then as_num (option_and_then (λ f. slice_get f.values at) (frame_at self.now.frames frame)) }
    {
        let index = index_at(self.values.len(), &self.marks, frame, at);
        num_at(&self.values, index)
    }

    /// The num of the innermost frame at an index; none if there is none.
    pub fn own_num(&self, at: usize) -> Option<Num>
        ensures { let innermost = length self.now.frames - 1 in result ≡ option_and_then as_num (option_and_then (λ f. slice_get f.values at) (frame_at self.now.frames innermost)) }
    {
        let index = innermost_at(self.values.len(), &self.marks, at);
        num_at(&self.values, index)
    }

    /// What a value of a frame stands for, by the number of frames below it and its index in the frame; none if it is
    /// not there or stands for nothing.
    pub fn place(&self, frame: usize, at: usize) -> Option<Lvalue>
        ensures { result ≡ option_and_then place_in (option_and_then (λ f. slice_get f.values at) (frame_at self.now.frames frame)) }
    {
        let index = index_at(self.values.len(), &self.marks, frame, at);
        place_at(&self.values, index)
    }

    /// Replaces a value of a frame, by the number of frames below it and its index in the frame. Changes nothing if
    /// there is none.
    pub fn put(&mut self, frame: usize, at: usize, datum: Held)
        ensures { self.new ≡ record self.old { frames = put_in_frame self.old.frames frame at datum (frame_at self.old.frames frame) } }
    {
        let index = index_at(self.values.len(), &self.marks, frame, at);
        write_at(&mut self.values, index, datum);
    }

    /// Replaces the value of the innermost frame at an index by a num. Changes nothing if there is none.
    pub fn put_own_num(&mut self, at: usize, number: Num)
        ensures { let innermost = length self.old.frames - 1 in self.new ≡ record self.old { frames = put_in_frame self.old.frames innermost at (Plain (values.Num number)) (frame_at self.old.frames innermost) } }
    {
        let index = innermost_at(self.values.len(), &self.marks, at);
        write_num_at(&mut self.values, index, number);
    }

    /// Replaces a value of a frame by a num, by the number of frames below it and its index in the frame. Changes
    /// nothing if there is none.
    pub fn put_num(&mut self, frame: usize, at: usize, number: Num)
        ensures { self.new ≡ record self.old { frames = put_in_frame self.old.frames frame at (Plain (values.Num number)) (frame_at self.old.frames frame) } }
    {
        let index = index_at(self.values.len(), &self.marks, frame, at);
        write_num_at(&mut self.values, index, number);
    }
}
