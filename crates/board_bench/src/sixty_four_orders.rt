use rapid_model::Watched;
use rapid_num::Memory;
use std::alloc::Global;
use std::marker::Model;
use trap_dispatch::{Due, Traps};

/// Signal 0 becomes 1.
const ON: Watched = Watched::Signal {
    signal: 0,
    value: true,
};

/// A task whose 64 interrupts all watch one signal.
#[derive(Drop)]
pub(crate) struct SixtyFourOrders {
    traps: Traps,
}

impl Model for SixtyFourOrders {
    ghost use Rattle.std.specs.Prelude.{◌≡◌, List, length};
    ghost use Rattle.trap_dispatch.specs.Tasks.{TaskData};

    ghost Value = { List TaskData };

    ghost view = { λ s. s.traps };

    ghost invariant = { λ s. length s.traps ≡ 1 };
}

impl SixtyFourOrders {
    pub(crate) fn new(alloc: Global) -> Result<SixtyFourOrders, Memory> {
        let traps = Traps::new(alloc, 1)?;
        let mut orders = SixtyFourOrders { traps };
        for trap in 0..64 {
            orders.order(trap);
        }
        Ok(orders)
    }

    /// Connects a number with a trap, and gives it an order.
    fn order(&mut self, trap: u32) {
        if let Ok(number) = self.traps.connect(0, 0, trap) {
            let _ordered = self.traps.order(0, number, ON, false);
        }
    }

    /// How many traps run after that many firings, each before the next firing.
    pub(crate) fn traps(&mut self, firings: u32) -> u32 {
        let mut count = 0_u32;
        for _firing in 0..firings {
            self.traps.fired(&[ON]);
            count = count.saturating_add(self.run_all());
        }
        count
    }

    /// Runs the waiting traps, at most 64.
    fn run_all(&mut self) -> u32 {
        for count in 0..64 {
            if !self.runs_one() {
                return count;
            }
        }
        64
    }

    /// Runs the first waiting trap, if any.
    fn runs_one(&mut self) -> bool {
        let runs = matches!(self.traps.look(0), Due::Trap { .. });
        if runs {
            self.traps.leave(0);
        }
        runs
    }
}
