//! How the task goes on with the outcome of an operation.

ghost use Rattle.std.specs.Prelude.{◌≡◌, ◌≢◌, ◌+◌, ◌<◌, ◌∷◌, length, Some};
ghost use Rattle.task_code.specs.Leads.{Runs};
ghost use Rattle.typed_trees.specs.declared.datum.Datum.TheVariants.{Place, Plain};
ghost use Rattle.stack_code.specs.Steps.{to_next};
ghost use Rattle.task_steps.specs.Alike.{Follows, Goes, with_stack};
ghost use Rattle.task_steps.specs.Doing.{came, gone, here_of};
ghost use Rattle.task_steps.specs.Seen.{room_of};
ghost use Rattle.task_steps.specs.Phases as phases;
ghost use Rattle.task_steps.specs.declared.steps.way.Way.TheVariants as ways;

use crate::routines::living::keep_code;
use crate::steps::done::Done;
use crate::steps::stage::Stage;
use crate::steps::way::Way;
use crate::task::Task;
use machine_stacks::Held;
use rapid_model::{Fate, Request, Value};
use stack_code::Pushed;
use task_code::Code;
use typed_trees::Lvalue;

impl Task {
    /// Goes on with the outcome of an operation.
    pub(crate) fn commit(&mut self, code: &Code, done: Option<Done>)
        requires going { self.old.phase ≡ phases.Going }
        requires room { self.old.room ≡ room_of code.now }
        requires runs { Runs code.now (came (here_of code.now self.old.conf) done) self.old.data' }
        ensures room { self.new.room ≡ self.old.room }
        ensures begun { self.new.phase ≢ phases.New }
        ensures on { Follows code.now (came (here_of code.now self.old.conf) done) self.old.data' self.new }
    {
        let way = self.settle(code, done);
        self.go(code, way)
    }

    /// Does what the outcome of an operation pushes or asks, and returns how the task goes on.
    pub(crate) fn settle(&mut self, code: &Code, done: Option<Done>) -> Option<Way>
        requires going { self.old.phase ≡ phases.Going }
        requires room { self.old.room ≡ room_of code.now }
        requires runs { Runs code.now (came (here_of code.now self.old.conf) done) self.old.data' }
        ensures room { self.new.room ≡ self.old.room }
        ensures going { result ≢ Some ways.Stay → self.new.phase ≡ phases.Going }
        ensures begun { self.new.phase ≢ phases.New }
        ensures on { Goes code.now (came (here_of code.now self.old.conf) done) self.old.data' result self.new }
    {
        match done {
            Some(Done::Next) => Some(Way::Next),
            Some(Done::Push(datum)) => self.put(code, datum),
            Some(Done::Jump(to)) => Some(Way::Jump(to)),
            Some(Done::Stay) => Some(Way::Stay),
            Some(Done::Raise(error)) => Some(Way::Raise(error)),
            Some(Done::Escape(error)) => Some(Way::Escape(error)),
            Some(Done::Ask { request, then }) => {
                self.asked = request;
                self.then = then;
                self.stage = Stage::Asking;
                Some(Way::Stay)
            }
            Some(Done::End(fate)) => Some(Way::End(fate)),
            None => None,
        }
    }

    /// Goes on in a given way.
    pub(crate) fn go(&mut self, code: &Code, way: Option<Way>)
        requires going { way ≢ Some ways.Stay → self.old.phase ≡ phases.Going }
        requires begun { self.old.phase ≢ phases.New }
        requires runs { Runs code.now (gone code.now way self.old) self.old.data' }
        ensures room { self.new.room ≡ self.old.room }
        ensures begun { self.new.phase ≢ phases.New }
        ensures on { Follows code.now (gone code.now way self.old) self.old.data' self.new }
    {
        keep_code(code);
        match way {
            Some(Way::Next) => self.go_next(code),
            Some(Way::Jump(to)) => self.jump(to),
            Some(Way::Stay) => {}
            Some(Way::Raise(error)) => {
                let place = self.pc;
                self.raise(code, place, error);
            }
            Some(Way::Escape(error)) => self.raise_out(code, error),
            Some(Way::End(fate)) => self.end(fate),
            None => unreachable!(),
        }
    }

    /// Ends: the End is the request that is due.
    pub(crate) fn end(&mut self, fate: Fate)
        ensures { self.new ≡ record self.old { phase = phases.Over fate } }
    {
        self.asked = Request::End { fate };
        self.stage = Stage::Over(fate);
    }

    /// Goes on to the next operation.
    pub(crate) fn go_next(&mut self, code: &Code)
        requires runs { Runs code.now (to_next (here_of code.now self.old.conf) self.old.conf.stack) self.old.data' }
        ensures { self.new ≡ record self.old { conf = record self.old.conf { pc = self.old.conf.pc + 1 } } }
    {
        keep_code(code);
        self.pc += 1;
    }

    /// Goes on at another place.
    pub(crate) fn jump(&mut self, to: u32)
        ensures { self.new ≡ record self.old { conf = record self.old.conf { pc = to } } }
    {
        self.pc = to;
    }

    /// Pushes an operand, and goes on to the next operation.
    pub(crate) fn put(&mut self, code: &Code, datum: Held) -> Option<Way>
        requires room { self.old.room ≡ room_of code.now }
        requires runs { Runs code.now (to_next (here_of code.now self.old.conf) (datum ∷ self.old.conf.stack)) self.old.data' }
        ensures next { result ≡ Some ways.Next }
        ensures put { self.new ≡ with_stack (datum ∷ self.old.conf.stack) self.old }
    {
        self.push(datum);
        Some(Way::Next)
    }

    /// Pushes a value, and goes on to the next operation.
    pub(crate) fn put_value(&mut self, code: &Code, value: Value) -> Option<Way>
        requires room { self.old.room ≡ room_of code.now }
        requires runs { Runs code.now (to_next (here_of code.now self.old.conf) (Plain value ∷ self.old.conf.stack)) self.old.data' }
        ensures next { result ≡ Some ways.Next }
        ensures put { self.new ≡ with_stack (Plain value ∷ self.old.conf.stack) self.old }
    {
        self.push_value(value);
        Some(Way::Next)
    }

    /// Pushes the value that an operation keeps, and goes on to the next operation.
    pub(crate) fn put_kept(&mut self, code: &Code, kept: &Pushed) -> Option<Way>
        requires room { self.old.room ≡ room_of code.now }
        requires runs { Runs code.now (to_next (here_of code.now self.old.conf) (kept.now ∷ self.old.conf.stack)) self.old.data' }
        ensures next { result ≡ Some ways.Next }
        ensures put { self.new ≡ with_stack (kept.now ∷ self.old.conf.stack) self.old }
    {
        self.put_value(code, kept.kept_value())
    }

    /// Pushes what a reference parameter stands for, and goes on to the next operation.
    pub(crate) fn put_place(&mut self, code: &Code, place: Lvalue) -> Option<Way>
        requires room { self.old.room ≡ room_of code.now }
        requires runs { Runs code.now (to_next (here_of code.now self.old.conf) (Place place ∷ self.old.conf.stack)) self.old.data' }
        ensures next { result ≡ Some ways.Next }
        ensures put { self.new ≡ with_stack (Place place ∷ self.old.conf.stack) self.old }
    {
        self.push_place(place);
        Some(Way::Next)
    }

    /// Pushes an operand.
    fn push(&mut self, datum: Held)
        requires { length self.old.conf.stack < self.old.room.operands }
        ensures { self.new ≡ with_stack (datum ∷ self.old.conf.stack) self.old }
    {
        self.operands.push(datum);
    }

    /// Pushes a value.
    fn push_value(&mut self, value: Value)
        requires { length self.old.conf.stack < self.old.room.operands }
        ensures { self.new ≡ with_stack (Plain value ∷ self.old.conf.stack) self.old }
    {
        self.operands.push_value(value);
    }

    /// Pushes what a reference parameter stands for.
    fn push_place(&mut self, place: Lvalue)
        requires { length self.old.conf.stack < self.old.room.operands }
        ensures { self.new ≡ with_stack (Place place ∷ self.old.conf.stack) self.old }
    {
        self.operands.push_place(place);
    }
}
