//! Persistents that are read and written, by a request that the task's slot takes at once.

ghost use Rattle.std.specs.Prelude.{◌≡◌, ◌≢◌, Some, IfSome, slice_get};
ghost use Rattle.typed_trees.specs.declared.datum.Datum.TheVariants.{Place, Plain};
ghost use Rattle.typed_trees.specs.declared.datum.Root.TheVariants as roots;
ghost use Rattle.task_code.specs.Leads.{Runs};
ghost use Rattle.stack_code.specs.CodeData.{CodeData};
ghost use Rattle.stack_code.specs.Steps.{act};
ghost use Rattle.stack_code.specs.declared.op.Op.TheVariants as ops;
ghost use Rattle.task_steps.specs.Alike.{Goes};
ghost use Rattle.task_steps.specs.Doing.{here_of};
ghost use Rattle.task_steps.specs.Seen.{room_of};
ghost use Rattle.task_steps.specs.Phases as phases;
ghost use Rattle.task_steps.specs.declared.steps.way.Way.TheVariants as ways;

use crate::requests::pending::Pending;
use crate::steps::stage::Stage;
use crate::steps::way::Way;
use crate::task::Task;
use rapid_model::{Path, Request, Value};
use task_code::Code;
use typed_trees::Root;

impl Task {
    /// Pushes the datum at the place on top. Asks to read it if it is a persistent's.
    pub(crate) fn load_other(&mut self, code: &Code) -> Option<Way>
        requires going { self.old.phase ≡ phases.Going }
        requires room { self.old.room ≡ room_of code.now }
        requires runs { Runs code.now (act (here_of code.now self.old.conf) ops.Load) self.old.data' }
        ensures room { self.new.room ≡ self.old.room }
        ensures going { result ≢ Some ways.Stay → self.new.phase ≡ phases.Going }
        ensures begun { self.new.phase ≢ phases.New }
        ensures goes { Goes code.now (act (here_of code.now self.old.conf) ops.Load) self.old.data' result self.new }
    {
        match self.pers_at(0) {
            Some((pers, path)) => {
                self.ask_value(pers, path);
                Some(Way::Stay)
            }
            None => {
                let done = self.load_any();
                self.settle(code, done)
            }
        }
    }

    /// The part of a persistent that an operand stands for, by the number of those above it, if it stands for one.
    fn pers_at(&self, above: usize) -> Option<(u32, Path)>
        ensures { IfSome result (λ it. slice_get self.now.conf.stack above ≡ Some (Place (record { root = roots.Pers it.0 it.1.index; part = it.1.part }))) }
    {
        let place = self.place_at(above)?;
        match place.root {
            Root::Pers { pers, index } => {
                let part = place.part;
                Some((pers, Path { index, part }))
            }
            _ => None,
        }
    }

    /// Asks to read a part of a persistent, whose place is on top.
    fn ask_value(&mut self, pers: u32, path: Path)
        requires { slice_get self.old.conf.stack 0 ≡ Some (Place (record { root = roots.Pers pers path.index; part = path.part })) }
        ensures room { self.new.room ≡ self.old.room }
        ensures begun { self.new.phase ≢ phases.New }
        ensures goes { (code : CodeData) → Goes code (act (here_of code self.old.conf) ops.Load) self.old.data' (Some ways.Stay) self.new }
    {
        self.asked = Request::ReadP { pers, path };
        self.then = Pending::Read;
        self.stage = Stage::Asking;
        self.drop_operand();
    }

    /// Stores the datum on top at the place below it. Asks to write it if the place is a persistent's.
    pub(crate) fn store_other(&mut self, code: &Code) -> Option<Way>
        requires going { self.old.phase ≡ phases.Going }
        requires room { self.old.room ≡ room_of code.now }
        requires runs { Runs code.now (act (here_of code.now self.old.conf) ops.Store) self.old.data' }
        ensures room { self.new.room ≡ self.old.room }
        ensures going { result ≢ Some ways.Stay → self.new.phase ≡ phases.Going }
        ensures begun { self.new.phase ≢ phases.New }
        ensures goes { Goes code.now (act (here_of code.now self.old.conf) ops.Store) self.old.data' result self.new }
    {
        match self.pers_at(1) {
            Some((pers, path)) => match self.value_at(0) {
                Some(value) => {
                    self.ask_to_write(pers, path, value);
                    Some(Way::Stay)
                }
                None => self.store_settled(code),
            },
            None => self.store_settled(code),
        }
    }

    /// Stores the datum on top at the place below it, whatever they are.
    fn store_settled(&mut self, code: &Code) -> Option<Way>
        requires going { self.old.phase ≡ phases.Going }
        requires room { self.old.room ≡ room_of code.now }
        requires runs { Runs code.now (act (here_of code.now self.old.conf) ops.Store) self.old.data' }
        ensures room { self.new.room ≡ self.old.room }
        ensures going { result ≢ Some ways.Stay → self.new.phase ≡ phases.Going }
        ensures begun { self.new.phase ≢ phases.New }
        ensures goes { Goes code.now (act (here_of code.now self.old.conf) ops.Store) self.old.data' result self.new }
    {
        let done = self.store_any();
        self.settle(code, done)
    }

    /// Asks to write the value on top to a part of a persistent, whose place is below it.
    fn ask_to_write(&mut self, pers: u32, path: Path, value: Value)
        requires value { slice_get self.old.conf.stack 0 ≡ Some (Plain value) }
        requires place { slice_get self.old.conf.stack 1 ≡ Some (Place (record { root = roots.Pers pers path.index; part = path.part })) }
        ensures room { self.new.room ≡ self.old.room }
        ensures begun { self.new.phase ≢ phases.New }
        ensures goes { (code : CodeData) → Goes code (act (here_of code self.old.conf) ops.Store) self.old.data' (Some ways.Stay) self.new }
    {
        self.asked = Request::WriteP { pers, path, value };
        self.then = Pending::Confirmed;
        self.stage = Stage::Asking;
        self.drop_operand();
        self.drop_operand();
    }
}
