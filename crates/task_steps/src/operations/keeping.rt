//! What operations do with answers that change the task's data.
#![tactic(auto, unfolding(rapid_meaning::specs::Doings::after))]

ghost use Rattle.std.specs.Prelude.{◌≡◌};
ghost use Rattle.stack_code.specs.CodeData.{CodeData};
ghost use Rattle.task_steps.specs.Alike.{Turns};
ghost use Rattle.task_steps.specs.Doing.{answered, here_of};
ghost use Rattle.task_steps.specs.declared.requests.pending.Pending.TheVariants as pendings;

use crate::steps::done::Done;
use crate::task::Task;
use machine_stacks::Held;
use rapid_model::{Answer, ERR_ALRDYCNT, ERR_INOMAX, Fate, Fault};
use typed_trees::Lvalue;

impl Task {
    /// An interrupt is connected: its number is stored (ERR_ALRDYCNT, ERR_INOMAX).
    pub(crate) fn connected(&mut self, place: Lvalue, answer: Answer) -> Option<Done>
        ensures phase { self.new.phase ≡ self.old.phase }
        ensures room { self.new.room ≡ self.old.room }
        ensures turns { (code : CodeData) → Turns code (answered (here_of code self.old.conf) (pendings.Connected place) answer) self.old.data' result self.new }
    {
        match answer {
            Answer::Number(number) => self.store_at(place, &Held::of_mark(number)),
            Answer::Already => Some(Done::Raise(ERR_ALRDYCNT)),
            Answer::NoMore => Some(Done::Raise(ERR_INOMAX)),
            _ => None,
        }
    }

    /// A zone was given: its number is stored.
    pub(crate) fn supervised(&mut self, place: Lvalue, answer: Answer) -> Option<Done>
        ensures phase { self.new.phase ≡ self.old.phase }
        ensures room { self.new.room ≡ self.old.room }
        ensures turns { (code : CodeData) → Turns code (answered (here_of code self.old.conf) (pendings.Supervised place) answer) self.old.data' result self.new }
    {
        match answer {
            Answer::Number(number) => self.store_at(place, &Held::of_mark(number)),
            Answer::ZoneUsed => Some(Done::End(Fate::Fault(Fault::ZoneUsed))),
            Answer::ZoneFull => Some(Done::End(Fate::Fault(Fault::ZoneFull))),
            Answer::Tied => Some(Done::End(Fate::Fault(Fault::TiedOutput))),
            _ => None,
        }
    }

    /// A zone was freed: 0 is stored.
    pub(crate) fn freed(&mut self, place: Lvalue, answer: Answer) -> Option<Done>
        ensures phase { self.new.phase ≡ self.old.phase }
        ensures room { self.new.room ≡ self.old.room }
        ensures turns { (code : CodeData) → Turns code (answered (here_of code self.old.conf) (pendings.Freed place) answer) self.old.data' result self.new }
    {
        match answer {
            Answer::Ok => self.store_at(place, &Held::of_mark(0)),
            Answer::NoZone => Some(Done::End(Fate::Fault(Fault::NoZone))),
            _ => None,
        }
    }

    /// A trap has ended: what it interrupted goes on.
    pub(crate) fn left(&mut self, answer: Answer) -> Option<Done>
        ensures phase { self.new.phase ≡ self.old.phase }
        ensures room { self.new.room ≡ self.old.room }
        ensures turns { (code : CodeData) → Turns code (answered (here_of code self.old.conf) pendings.Left answer) self.old.data' result self.new }
    {
        match answer {
            Answer::Ok => {
                self.trapped = false;
                Some(Done::Stay)
            }
            _ => None,
        }
    }
}
