ghost use Rattle.std.specs.Prelude.{◌≡◌, ◌≢◌, true, false};
ghost use Rattle.task_code.specs.Leads.{Runs};
ghost use Rattle.stack_code.specs.Steps.{step};
ghost use Rattle.task_steps.specs.Alike.{Follows};
ghost use Rattle.task_steps.specs.Points.{conf_in};
ghost use Rattle.task_steps.specs.Seen.{room_of};
ghost use Rattle.task_steps.specs.Phases as phases;

use crate::routines::loaded::LoadedCode;
use crate::steps::stage::Stage;
use crate::steps::way::Way;
use crate::task::Task;

impl Task {
    /// Whether the task has begun and no request is due.
    #[tactic(auto, using(crate::proofs::Stages::not_going))]
    pub fn is_going(&self) -> bool
        ensures going { result ≡ true → self.now.phase ≡ phases.Going }
        ensures other { result ≡ false → self.now.phase ≢ phases.Going }
    {
        matches!(self.stage, Stage::Going)
    }

    /// Runs the operation at the task's place.
    pub fn step(&mut self, loaded: &LoadedCode)
        requires going { self.old.phase ≡ phases.Going }
        requires room { self.old.room ≡ room_of loaded.now }
        requires runs { Runs loaded.now (step loaded.now (conf_in loaded.now self.old.conf)) self.old.data' }
        ensures room { self.new.room ≡ self.old.room }
        ensures begun { self.new.phase ≢ phases.New }
        ensures on { Follows loaded.now (step loaded.now (conf_in loaded.now self.old.conf)) self.old.data' self.new }
    {
        let op = &loaded.code().ops()[self.pc as usize];
        match self.perform(loaded, op) {
            Some(way) => match way {
                Way::Next => self.go_next(loaded.code()),
                Way::Jump(to) => self.jump(to),
                Way::Stay => {}
                _ => self.go(loaded.code(), Some(way)),
            },
            None => unreachable!(),
        }
    }
}
