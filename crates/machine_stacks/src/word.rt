ghost use Rattle.std.specs.Prelude.{◌≡◌, Some};
ghost use Rattle.std.specs.Option.{option_and_then};
ghost use Rattle.typed_trees.specs.declared.datum.Datum.TheVariants.{Place};
ghost use Rattle.rapid_meaning.specs.Places.{place_in};
ghost use Rattle.machine_stacks.specs.Words.{in_word};

use crate::held::Held;
use rapid_model::{PartName, Value};
use rapid_num::Num;
use typed_trees::{Lvalue, Root};

/// A datum in 16 bytes, or that it lies apart.
#[derive(Clone, Copy, Debug)]
pub(crate) enum Word {
    Num(Num),
    Bool(bool),
    Mark(u8),
    Slot {
        part: PartName,
        slot: u32,
    },
    Frame {
        frame: u8,
        part: PartName,
        at: u32,
    },
    Pers {
        part: PartName,
        index: u16,
        pers: u32,
    },
    Apart,
}

const _: () = prove!(size_of::<Word>() == 16);

impl Word {
    /// What a reference parameter stands for.
    pub(crate) fn of_place(place: Lvalue) -> Word
        ensures { in_word result ≡ Some (Place place) }
    {
        let part = place.part;
        match place.root {
            Root::Slot(slot) => Word::Slot { part, slot },
            Root::Frame { frame, at } => Word::Frame { frame, part, at },
            Root::Pers { pers, index } => Word::Pers { part, index, pers },
        }
    }

    /// What its datum stands for; none if this is not a reference parameter's, or lies apart.
    pub(crate) fn place(self) -> Option<Lvalue>
        ensures { result ≡ option_and_then place_in (in_word self) }
    {
        let (root, part) = match self {
            Word::Slot { part, slot } => (Root::Slot(slot), part),
            Word::Frame { frame, part, at } => (Root::Frame { frame, at }, part),
            Word::Pers { part, index, pers } => (Root::Pers { pers, index }, part),
            _ => return None,
        };
        Some(Lvalue { root, part })
    }

    /// The datum; none if it lies apart.
    pub(crate) fn held(self) -> Option<Held>
        ensures { result ≡ in_word self }
    {
        match self {
            Word::Num(number) => Some(Held::of_value(Value::Num(number))),
            Word::Bool(truth) => Some(Held::of_value(Value::Bool(truth))),
            Word::Mark(number) => Some(Held::of_mark(number)),
            Word::Apart => None,
            _ => match self.place() {
                Some(place) => Some(Held::of_place(place)),
                None => None,
            },
        }
    }
}
