//! The machine as a program of one task: it runs its code.

use crate::machine::Machine;
use cell_crew::TaskMachine;
use rapid_model::{Answer, Request};

impl TaskMachine for Machine {
    ghost use Rattle.std.specs.Prelude.{◌≡◌};
    ghost use Rattle.stack_code.specs.CodeData.{CodeData};
    ghost use Rattle.task_code.specs.Live.{CodeFits};
    ghost use Rattle.task_steps.specs.Phases as phases;
    ghost use Rattle.task_code.specs.Asking.{CodeAsks};
    ghost use Rattle.task_machine.specs.MachineData.{request_of};
    ghost use Rattle.task_machine.specs.Programs.{asks_due};
    ghost use Rattle.task_machine.specs.Standing.{StandsFor};

    ghost Program = { CodeData };

    ghost program = { λ m. m.code };

    ghost fits = { CodeFits };

    ghost asks = { CodeAsks };

    ghost is_fresh = { λ m. m.phase ≡ phases.New };

    ghost stands_for = { StandsFor };

    ghost due = { request_of };

    fn first(&mut self) {
        self.begin();
    }

    fn next(&mut self, answer: Answer) {
        self.go_on(answer);
    }

    fn last(&self) -> &Request {
        Machine::last(self)
    }

    ghost asks_due = { asks_due };
}
