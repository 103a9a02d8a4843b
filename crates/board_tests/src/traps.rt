//! A task with interrupts, step by step.

use crate::one_task::OneTask;
use crate::step::Step;
use crate::step::Step::{Connect, Delete, Disable, Due, Enable, Fire, Look, Order, Sleep, Watch};
use std::test::Fail;
use trap_dispatch::{ConnectFault, OrderFault};

/// Nothing.
const NOTHING: Step = Look(trap_dispatch::Due::None);

/// The trap of number 1, and that of number 2.
const FIRST: Step = Look(trap_dispatch::Due::Trap { number: 1, trap: 5 });

const SECOND: Step = Look(trap_dispatch::Due::Trap { number: 2, trap: 6 });

const FLOOD: Step = Look(trap_dispatch::Due::Flood);

/// An interrupt is connected with trap 6, and gets number 2.
const CONNECT_SECOND: Step = Connect {
    old: 0,
    trap: 6,
    wanted: Ok(2),
};

const ORDER_SECOND: Step = Order {
    number: 2,
    single: false,
    wanted: Ok(()),
};

static STEPS: [Step; 31] = [
    Connect {
        old: 0,
        trap: 5,
        wanted: Ok(1),
    },
    Connect {
        old: 1,
        trap: 6,
        wanted: Err(ConnectFault::Already),
    },
    CONNECT_SECOND,
    Order {
        number: 3,
        single: false,
        wanted: Err(OrderFault::Unknown),
    },
    Order {
        number: 1,
        single: true,
        wanted: Ok(()),
    },
    Order {
        number: 1,
        single: true,
        wanted: Err(OrderFault::Already),
    },
    ORDER_SECOND,
    Fire,
    FIRST,
    SECOND,
    NOTHING,
    // The order of number 1 has ended.
    Fire,
    SECOND,
    NOTHING,
    Sleep(2),
    Fire,
    Due(false),
    NOTHING,
    Watch(2),
    Disable,
    Fire,
    Due(false),
    Enable,
    Due(true),
    SECOND,
    // A deleted number's queue entries go with it.
    Fire,
    Delete(2),
    Due(false),
    NOTHING,
    CONNECT_SECOND,
    Due(false),
];

/// A task with one interrupt, number 1, with trap 5, which fires each time.
static ONE_INTERRUPT: [Step; 2] = [
    Connect {
        old: 0,
        trap: 5,
        wanted: Ok(1),
    },
    Order {
        number: 1,
        single: false,
        wanted: Ok(()),
    },
];

fn all_done(task: &mut OneTask, steps: &[Step]) -> bool {
    steps.iter().all(|step| task.does(*step))
}

#[test]
fn interrupts(rt: HostRuntime) -> Result<(), Fail> {
    let mut task = OneTask::new(rt.alloc())?;
    for (index, step) in STEPS.iter().enumerate() {
        assert!(rt; task.does(*step), "step {index}");
    }
    Ok(())
}

#[test]
fn sixty_four_numbers(rt: HostRuntime) -> Result<(), Fail> {
    let mut task = OneTask::new(rt.alloc())?;
    for number in 1..=64 {
        assert_eq!(rt; task.connect(0, 5), Ok(number));
    }
    assert_eq!(rt; task.connect(0, 5), Err(ConnectFault::NoMore));
    Ok(())
}

/// 1,025 firings are one too many, even after the number is deleted.
#[test]
fn a_flood(rt: HostRuntime) -> Result<(), Fail> {
    let mut task = OneTask::new(rt.alloc())?;
    assert!(rt; all_done(&mut task, &ONE_INTERRUPT));
    for _firing in 0..1_025 {
        task.fire();
    }
    assert!(rt; all_done(&mut task, &[FLOOD, Delete(1), Due(true), FLOOD]));
    Ok(())
}

/// 1,024 firings are not.
#[test]
fn no_flood(rt: HostRuntime) -> Result<(), Fail> {
    let mut task = OneTask::new(rt.alloc())?;
    assert!(rt; all_done(&mut task, &ONE_INTERRUPT));
    for _firing in 0..1_024 {
        task.fire();
    }
    assert!(rt; all_done(&mut task, &[FIRST, Delete(1), NOTHING]));
    Ok(())
}
