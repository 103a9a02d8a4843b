use crate::step::Step;
use rapid_model::Watched;
use std::alloc::Global;
use std::marker::Model;
use std::test::Fail;
use trap_dispatch::{ConnectFault, Due, OrderFault, Traps};

/// Signal 0 becomes 1.
const ON: Watched = Watched::Signal {
    signal: 0,
    value: true,
};

/// The interrupts of a cell of one task.
#[derive(Drop)]
pub(crate) struct OneTask {
    traps: Traps,
}

impl Model for OneTask {
    ghost use Rattle.std.specs.Prelude.{◌≡◌, List, length};
    ghost use Rattle.trap_dispatch.specs.Tasks.{TaskData};

    ghost Value = { List TaskData };

    ghost view = { λ o. o.traps };

    ghost invariant = { λ o. length o.traps ≡ 1 };
}

impl OneTask {
    pub(crate) fn new(alloc: Global) -> Result<OneTask, Fail> {
        let traps = Traps::new(alloc, 1).ok().ok_or("memory")?;
        Ok(OneTask { traps })
    }

    /// Takes a step, and returns whether the result is as expected.
    pub(crate) fn does(&mut self, step: Step) -> bool {
        match step {
            Step::Connect { old, trap, wanted } => self.connect(old, trap) == wanted,
            Step::Order {
                number,
                single,
                wanted,
            } => self.order(number, single) == wanted,
            Step::Sleep(number) => self.traps.sleep(0, number).is_ok(),
            Step::Watch(number) => self.traps.watch(0, number).is_ok(),
            Step::Delete(number) => self.traps.delete(0, number).is_ok(),
            Step::Disable => {
                self.traps.disable(0);
                true
            }
            Step::Enable => {
                self.traps.enable(0);
                true
            }
            Step::Fire => {
                self.fire();
                true
            }
            Step::Due(wanted) => self.traps.due(0) == wanted,
            Step::Look(wanted) => self.look() == Some(wanted),
        }
    }

    pub(crate) fn connect(&mut self, old: u8, trap: u32) -> Result<u8, ConnectFault> {
        self.traps.connect(0, old, trap)
    }

    fn order(&mut self, number: u8, single: bool) -> Result<(), OrderFault> {
        self.traps.order(0, number, ON, single)
    }

    pub(crate) fn fire(&mut self) {
        self.traps.fired(&[ON]);
    }

    /// The answer to a look; a trap is left again. `None` if anything was due within the trap.
    fn look(&mut self) -> Option<Due> {
        let due = self.traps.look(0);
        if let Due::Trap { .. } = due {
            let within = self.traps.look(0);
            if within != Due::None || self.traps.due(0) {
                return None;
            }
            self.traps.leave(0);
        }
        Some(due)
    }
}
