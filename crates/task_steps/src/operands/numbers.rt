//! Nums of the task's own data, read and written in place.

ghost use Rattle.std.specs.Prelude.{◌≡◌, Some, IfSome, IsSome};
ghost use Rattle.rapid_model.specs.declared.value.Value.TheVariants as values;
ghost use Rattle.typed_trees.specs.declared.datum.Datum.TheVariants.{Plain};
ghost use Rattle.rapid_meaning.specs.Data.{datum_at, put_at};
ghost use Rattle.task_steps.specs.Own.{IsNumAt};

use crate::task::Task;
use rapid_model::PartName;
use rapid_num::Num;
use typed_trees::{Lvalue, Root};

impl Task {
    /// The num at a place of the task's own data, if the place is all of a datum.
    pub(crate) fn own_num(&self, place: Lvalue) -> Option<Num>
        ensures { IfSome result (λ n. IsNumAt self.now.data' place n) }
    {
        match place.part {
            PartName::Whole => self.num_in(place.root),
            _ => None,
        }
    }

    /// The num of the task's own data at a root.
    fn num_in(&self, root: Root) -> Option<Num>
        ensures { IfSome result (λ n. datum_at root self.now.data' ≡ Some (Plain (values.Num n))) }
    {
        match root {
            Root::Slot(slot) => self.slots.get(slot as usize)?.num(),
            Root::Frame { frame, at } => self.frames.num(frame as usize, at as usize),
            Root::Pers { .. } => None,
        }
    }

    /// Writes a num at a place of the task's own data that is there.
    pub(crate) fn put_num(&mut self, place: Lvalue, number: Num)
        requires { IsSome (datum_at place.root self.old.data') }
        ensures phase { self.new.phase ≡ self.old.phase }
        ensures room { self.new.room ≡ self.old.room }
        ensures conf { self.new.conf ≡ self.old.conf }
        ensures data { self.new.data' ≡ put_at place.root (Plain (values.Num number)) self.old.data' }
    {
        match place.root {
            Root::Slot(slot) => self.slots[slot as usize].set_num(number),
            Root::Frame { frame, at } => self.frames.put_num(frame as usize, at as usize, number),
            Root::Pers { .. } => {}
        }
    }
}
