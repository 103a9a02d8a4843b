ghost use Rattle.std.specs.Prelude.{◌≡◌, ◌≢◌, ◌+◌, ◌<◌, ◌≤◌, ◌++◌, [], ◌∷◌, length, reverse, take, drop, slice_get, IfOk};
ghost use Rattle.std.specs.Option.{option_and_then};
ghost use Rattle.rapid_model.specs.declared.value.Value.TheVariants as values;
ghost use Rattle.typed_trees.specs.declared.datum.Datum.TheVariants.{Place, Plain};
ghost use Rattle.rapid_meaning.specs.Places.{place_in};
ghost use Rattle.machine_stacks.specs.Forms.{as_bool, as_num};
ghost use Rattle.machine_stacks.specs.OperandStack.{OperandStack, operands_in};

use crate::held::Held;
use crate::moving::move_tail;
use crate::words::Words;
use rapid_model::Value;
use rapid_num::Num;
use std::alloc::{AllocError, Global};
use std::marker::Model;
use typed_trees::Lvalue;

/// The operands of a task: those of the running routine on top, those of the routines that wait for it below. Contracts
/// see the operands of each routine, the one pushed last first, and the room for operands and for waiting routines.
#[derive(Debug, Drop)]
pub struct Operands {
    items: Words,
    base: usize,
    bases: Vec<usize>,
}

impl Model for Operands {
    ghost use Rattle.std.specs.Prelude.{◌∷◌, List, length, reverse, take, drop};
    ghost use Rattle.std.specs.Vec.{vec_capacity};
    ghost use Rattle.machine_stacks.specs.Cuts.{IsCut};
    ghost use Rattle.machine_stacks.specs.OperandStack.{OperandStack, stacked};

    ghost Value = { OperandStack };

    ghost view = { λ s. record { top = reverse (drop s.base s.items.items); below = stacked (take s.base s.items.items) (reverse s.bases.items); room = s.items.room; depth = vec_capacity s.bases } };

    // The operands of each routine begin where those of the routine below it end.
    ghost invariant = { λ s. IsCut (length s.items.items) (s.base ∷ reverse s.bases.items) };
}

impl Operands {
    /// A running routine without operands and none below it, with room for `room` operands in all and for `depth`
    /// waiting routines. Fails only if an allocation fails.
    pub fn new(alloc: Global, room: usize, depth: usize) -> Result<Operands, AllocError>
        ensures { IfOk result (λ s. s ≡ record { top = []; below = []; room = room; depth = depth }) }
    {
        let items = Words::new(alloc, room)?;
        let bases = Vec::with_capacity(alloc, depth)?;
        Ok(Operands {
            items,
            base: 0,
            bases,
        })
    }

    /// The number of operands of the running routine.
    pub fn len(&self) -> usize
        ensures { result ≡ length self.now.top }
    {
        self.items.len() - self.base
    }

    /// An operand of the running routine, by the number of those above it; none if there are not that many. Does not
    /// allocate.
    pub fn peek(&self, above: usize) -> Option<Held>
        ensures { result ≡ slice_get self.now.top above }
    {
        if above < self.len() {
            self.items.datum(self.items.len() - 1 - above)
        } else {
            None
        }
    }

    /// The num of an operand of the running routine, by the number of those above it; none if there is none.
    pub fn num(&self, above: usize) -> Option<Num>
        ensures { result ≡ option_and_then as_num (slice_get self.now.top above) }
    {
        if above < self.len() {
            self.items.num(self.items.len() - 1 - above)
        } else {
            None
        }
    }

    /// The bool of an operand of the running routine, by the number of those above it; none if there is none.
    pub fn truth(&self, above: usize) -> Option<bool>
        ensures { result ≡ option_and_then as_bool (slice_get self.now.top above) }
    {
        if above < self.len() {
            self.items.truth(self.items.len() - 1 - above)
        } else {
            None
        }
    }

    /// What an operand of the running routine stands for, by the number of those above it; none if it is not there or
    /// stands for nothing.
    pub fn place(&self, above: usize) -> Option<Lvalue>
        ensures { result ≡ option_and_then place_in (slice_get self.now.top above) }
    {
        if above < self.len() {
            self.items.place(self.items.len() - 1 - above)
        } else {
            None
        }
    }

    /// Pushes an operand. Does not allocate.
    pub fn push(&mut self, datum: Held)
        requires room { operands_in self.old < self.old.room }
        ensures { self.new ≡ record self.old { top = datum ∷ self.old.top } }
    {
        self.items.push(datum);
    }

    /// Pushes a value. Does not allocate.
    pub fn push_value(&mut self, value: Value)
        requires room { operands_in self.old < self.old.room }
        ensures { self.new ≡ record self.old { top = Plain value ∷ self.old.top } }
    {
        self.items.push_value(value);
    }

    /// Pushes what a reference parameter stands for. Does not allocate.
    pub fn push_place(&mut self, place: Lvalue)
        requires room { operands_in self.old < self.old.room }
        ensures { self.new ≡ record self.old { top = Place place ∷ self.old.top } }
    {
        self.items.push_place(place);
    }

    /// Pops the operand on top. Does not allocate.
    pub fn pop(&mut self) -> Held
        requires some { self.old.top ≢ [] }
        ensures { self.old ≡ record self.new { top = result ∷ self.new.top } }
    {
        let last = self.items.len() - 1;
        match self.items.datum(last) {
            Some(datum) => {
                self.items.truncate(last);
                datum
            }
            None => unreachable!(),
        }
    }

    /// Drops the operand on top.
    pub fn drop_top(&mut self)
        requires some { self.old.top ≢ [] }
        ensures { self.new ≡ record self.old { top = drop 1 self.old.top } }
    {
        self.items.truncate(self.items.len() - 1);
    }

    /// Replaces the operand on top by a value. Does not allocate.
    pub fn set_top_value(&mut self, value: Value)
        requires some { self.old.top ≢ [] }
        ensures { self.new ≡ record self.old { top = Plain value ∷ drop 1 self.old.top } }
    {
        let last = self.items.len() - 1;
        self.items.set_value(last, value);
    }

    /// Replaces the operand on top by a num.
    pub fn set_top_num(&mut self, number: Num)
        requires some { self.old.top ≢ [] }
        ensures { self.new ≡ record self.old { top = Plain (values.Num number) ∷ drop 1 self.old.top } }
    {
        let last = self.items.len() - 1;
        self.items.set_num(last, number);
    }

    /// Begins a routine without operands, above those of the routine that waits for it. Does not allocate.
    pub fn open(&mut self)
        requires depth { length self.old.below < self.old.depth }
        ensures { self.new ≡ record self.old { top = []; below = self.old.top ∷ self.old.below } }
    {
        self.bases.push_reserved(self.base);
        self.base = self.items.len();
    }

    /// Leaves a routine: its operands are dropped, and those of the routine that waited for it are on top again.
    pub fn close(&mut self)
        requires some { self.old.below ≢ [] }
        ensures { self.old ≡ record self.new { top = self.old.top; below = self.new.top ∷ self.new.below } }
    {
        self.items.truncate(self.base);
        self.base = match self.bases.pop() {
            Some(base) => base,
            None => unreachable!(),
        };
    }

    /// Drops the operands of the running routine.
    pub fn clear(&mut self)
        ensures { self.new ≡ record self.old { top = [] } }
    {
        self.items.truncate(self.base);
    }

    /// Moves `count` operands from the top to the end of a row, in the order in which they were pushed. Does not
    /// allocate.
    pub(crate) fn move_to(&mut self, count: usize, list: &mut Words)
        requires some { count ≤ length self.old.top }
        requires room { length list.old.items + count ≤ list.old.room }
        ensures rest { self.new ≡ record self.old { top = drop count self.old.top } }
        ensures moved { list.new.items ≡ list.old.items ++ reverse (take count self.old.top) }
        ensures room { list.new.room ≡ list.old.room }
    {
        let at = self.items.len() - count;
        move_tail(&mut self.items, at, list);
    }
}
