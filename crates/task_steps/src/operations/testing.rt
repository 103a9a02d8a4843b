//! TestAndSet (RAPID Instructions, TestAndSet).
#![tactic(auto, unfolding(rapid_meaning::specs::Doings::after))]

ghost use Rattle.std.specs.Prelude.{◌≡◌};
ghost use Rattle.std.specs.Option.{option_and_then};
ghost use Rattle.rapid_meaning.specs.Data.{datum_at};
ghost use Rattle.rapid_meaning.specs.Doings.{Raises, after, or_misfit};
ghost use Rattle.rapid_meaning.specs.Places.{part_in, set_unless, test_and_set};
ghost use Rattle.rapid_meaning.specs.Values.{truth_in, value_in};
ghost use Rattle.stack_code.specs.CodeData.{CodeData};
ghost use Rattle.stack_code.specs.Steps.{act, as_truth, pushes};
ghost use Rattle.stack_code.specs.declared.op.Op.TheVariants as ops;
ghost use Rattle.task_steps.specs.Alike.{Turns};
ghost use Rattle.task_steps.specs.Doing.{here_of};
ghost use Rattle.task_steps.specs.Own.{IsOwn};

use crate::requests::pending::Pending;
use crate::steps::done::Done;
use crate::steps::shown::truth_of;
use crate::task::Task;
use machine_stacks::Held;
use rapid_model::{Path, Request, Value};
use typed_trees::{Lvalue, Root};

impl Task {
    /// Sets the bool at the place on top, and pushes whether it was FALSE; a persistent by one request.
    pub(crate) fn test_and_set(&mut self) -> Option<Done>
        ensures phase { self.new.phase ≡ self.old.phase }
        ensures room { self.new.room ≡ self.old.room }
        ensures turns { (code : CodeData) → Turns code (act (here_of code self.old.conf) ops.TestSet) self.old.data' result self.new }
    {
        let place = self.pop_place()?;
        self.test_at(place)
    }

    /// Sets the bool at a place, and pushes whether it was FALSE.
    fn test_at(&mut self, place: Lvalue) -> Option<Done>
        ensures phase { self.new.phase ≡ self.old.phase }
        ensures room { self.new.room ≡ self.old.room }
        ensures conf { self.new.conf ≡ self.old.conf }
        ensures turns { (code : CodeData) → Turns code (pushes (here_of code self.old.conf) self.old.conf.stack as_truth (test_and_set place)) self.old.data' result self.new }
    {
        match place.root {
            Root::Slot(_) => self.test_own(place),
            Root::Frame { .. } => self.test_own(place),
            Root::Pers { pers, index } => {
                let part = place.part;
                Some(Done::Ask {
                    request: Request::TestSet {
                        pers,
                        path: Path { index, part },
                    },
                    then: Pending::Tested,
                })
            }
        }
    }

    /// Sets the bool at a place of the task's own data, and pushes whether it was FALSE.
    fn test_own(&mut self, place: Lvalue) -> Option<Done>
        requires { IsOwn place.root }
        ensures phase { self.new.phase ≡ self.old.phase }
        ensures room { self.new.room ≡ self.old.room }
        ensures conf { self.new.conf ≡ self.old.conf }
        ensures turns { (code : CodeData) → Turns code (pushes (here_of code self.old.conf) self.old.conf.stack as_truth (test_and_set place)) self.old.data' result self.new }
    {
        let was = self.truth_at(place)?;
        self.set_unless(place, was)
    }

    /// The bool at a place of the task's own data, if there is one.
    fn truth_at(&self, place: Lvalue) -> Option<bool>
        ensures { or_misfit result ≡ after (after (or_misfit (option_and_then (part_in place.part) (datum_at place.root self.now.data'))) value_in Raises) truth_in Raises }
    {
        let held = self.own_part(place)?;
        truth_in(&held)
    }

    /// Makes a place of the task's own data TRUE unless it is, and pushes whether it was FALSE.
    fn set_unless(&mut self, place: Lvalue, was: bool) -> Option<Done>
        requires { IsOwn place.root }
        ensures phase { self.new.phase ≡ self.old.phase }
        ensures room { self.new.room ≡ self.old.room }
        ensures conf { self.new.conf ≡ self.old.conf }
        ensures turns { (code : CodeData) → Turns code (pushes (here_of code self.old.conf) self.old.conf.stack as_truth (set_unless place was)) self.old.data' result self.new }
    {
        if was {
            return Some(Done::value(Value::Bool(false)));
        }
        self.put_own(place, &Held::of_value(Value::Bool(true)))?;
        Some(Done::value(Value::Bool(true)))
    }
}

/// The bool that a datum is.
fn truth_in(held: &Held) -> Option<bool>
    ensures { or_misfit result ≡ after (value_in held.now) truth_in Raises }
{
    match held.value() {
        Some(value) => truth_of(value),
        None => None,
    }
}
