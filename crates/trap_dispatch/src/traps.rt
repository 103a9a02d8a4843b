ghost use Rattle.std.specs.Prelude.{◌≡◌, ◌<◌, ◌↔◌, true, false, length, map, replicate, IfOk, IsSome, IsNone, IsErr, IsTrue, IsSomeAnd, OnOk, OnErr, Err};
ghost use Rattle.trap_dispatch.specs.Firing.{connected_at};
ghost use Rattle.trap_dispatch.specs.Tasks.{before_all, connect_answer, fresh, is_due, look_answer, after_look, after_changes, deleted, ordered, slept, with_number};
ghost use Rattle.trap_dispatch.specs.Traps.{task_at, with_task};
ghost use Rattle.trap_dispatch.specs.declared.order_fault.OrderFault.TheVariants as order_faults;

use crate::connect_fault::ConnectFault;
use crate::due::Due;
use crate::order_fault::OrderFault;
use crate::task_traps::TaskTraps;
use crate::unknown::Unknown;
use rapid_model::Watched;
use rapid_num::Memory;
use std::alloc::{AllocError, Global};
use std::marker::Model;

/// The interrupts of each task of a cell. Contracts see, for each task, its 64 entries, the numbers that wait, and
/// whether the queue overflowed, interrupts are disabled, and the task is in a trap. A call changes only its own task.
/// Only `new` allocates (RAPID Instructions: CONNECT, ISignalDI, ISignalDO, IPers, ISleep, IWatch, IDelete, IDisable,
/// IEnable).
#[derive(Drop)]
pub struct Traps {
    tasks: Vec<TaskTraps>,
}

impl Model for Traps {
    ghost use Rattle.std.specs.Prelude.{List};
    ghost use Rattle.trap_dispatch.specs.Tasks.{TaskData};

    ghost Value = { List TaskData };

    ghost view = { λ t. t.tasks.items };
}

impl Traps {
    /// No number is connected in any of that many tasks. Fails only if an allocation fails.
    pub fn new(alloc: Global, tasks: u32) -> Result<Traps, Memory>
        ensures { IfOk result (λ t. t ≡ replicate tasks before_all) }
    {
        match starts(alloc, tasks) {
            Ok(tasks) => Ok(Traps { tasks }),
            Err(_) => Err(Memory),
        }
    }

    /// Connects the least free number, 1 to 64, with a trap, by routine number within its task: `Already` exactly if
    /// the old number is connected, otherwise `NoMore` exactly if no number is free. The number is awake and has no
    /// order.
    pub fn connect(&mut self, task: u32, old: u8, trap: u32) -> Result<u8, ConnectFault>
        requires task { task < length self.old }
        ensures answer { result ≡ connect_answer (task_at self.old task) old }
        ensures ok { IfOk result (λ number. self.new ≡ with_task self.old task (with_number (task_at self.old task) number (fresh trap))) }
        ensures err { OnErr result (self.new ≡ self.old) }
    {
        self.tasks[task as usize].connect(old, trap)
    }

    /// Orders the interrupt to watch a signal or a persistent, only once if `single`.
    pub fn order(
        &mut self,
        task: u32,
        number: u8,
        on: Watched,
        single: bool,
    ) -> Result<(), OrderFault>
        requires task { task < length self.old }
        ensures unknown { (result ≡ Err order_faults.Unknown) ↔ IsNone (connected_at (task_at self.old task).numbers number) }
        ensures already { (result ≡ Err order_faults.Already) ↔ IsSomeAnd (connected_at (task_at self.old task).numbers number) (λ c. IsSome c.order) }
        ensures ok { OnOk result (self.new ≡ with_task self.old task (ordered (task_at self.old task) number (record { on = on; single = single }))) }
        ensures err { OnErr result (self.new ≡ self.old) }
    {
        self.tasks[task as usize].order(number, on, single)
    }

    /// Puts the interrupt to sleep: it does not fire until it wakes up. A number that waits already still runs its
    /// trap.
    pub fn sleep(&mut self, task: u32, number: u8) -> Result<(), Unknown>
        requires task { task < length self.old }
        ensures unknown { IsErr result ↔ IsNone (connected_at (task_at self.old task).numbers number) }
        ensures ok { OnOk result (self.new ≡ with_task self.old task (slept (task_at self.old task) number true)) }
        ensures err { OnErr result (self.new ≡ self.old) }
    {
        self.tasks[task as usize].set_asleep(number, true)
    }

    /// Wakes the interrupt up.
    pub fn watch(&mut self, task: u32, number: u8) -> Result<(), Unknown>
        requires task { task < length self.old }
        ensures unknown { IsErr result ↔ IsNone (connected_at (task_at self.old task).numbers number) }
        ensures ok { OnOk result (self.new ≡ with_task self.old task (slept (task_at self.old task) number false)) }
        ensures err { OnErr result (self.new ≡ self.old) }
    {
        self.tasks[task as usize].set_asleep(number, false)
    }

    /// Frees the number, with its order and its entries in the queue.
    pub fn delete(&mut self, task: u32, number: u8) -> Result<(), Unknown>
        requires task { task < length self.old }
        ensures unknown { IsErr result ↔ IsNone (connected_at (task_at self.old task).numbers number) }
        ensures ok { OnOk result (self.new ≡ with_task self.old task (deleted (task_at self.old task) number)) }
        ensures err { OnErr result (self.new ≡ self.old) }
    {
        self.tasks[task as usize].delete(number)
    }

    /// Disables the task's interrupts: they are queued, and their traps wait.
    pub fn disable(&mut self, task: u32)
        requires task { task < length self.old }
        ensures { self.new ≡ with_task self.old task (record (task_at self.old task) { disabled = true }) }
    {
        self.tasks[task as usize].set_disabled(true);
    }

    /// Enables the task's interrupts.
    pub fn enable(&mut self, task: u32)
        requires task { task < length self.old }
        ensures { self.new ≡ with_task self.old task (record (task_at self.old task) { disabled = false }) }
    {
        self.tasks[task as usize].set_disabled(false);
    }

    /// The changes of one event: each task queues the numbers that fire, ascending. If one finds 1,024 waiting, the
    /// flood is marked for good. A Single order ends once it fires.
    pub fn fired(&mut self, changes: &[Watched])
        ensures { self.new ≡ map (after_changes changes.now) self.old }
    {
        fire_each(&mut self.tasks, changes);
    }

    /// Whether a trap is to run before the task goes on. If so, its number leaves the queue and the task is in the
    /// trap.
    pub fn look(&mut self, task: u32) -> Due
        requires task { task < length self.old }
        ensures answer { result ≡ look_answer (task_at self.old task) }
        ensures after { self.new ≡ with_task self.old task (after_look (task_at self.old task)) }
    {
        self.tasks[task as usize].look()
    }

    /// Whether `look` would return anything but `None`.
    pub fn due(&self, task: u32) -> bool
        requires task { task < length self.now }
        ensures { result ≡ is_due (look_answer (task_at self.now task)) }
    {
        self.tasks[task as usize].due()
    }

    /// Ends the trap that the task is in.
    pub fn leave(&mut self, task: u32)
        requires task { task < length self.old }
        requires in_trap { IsTrue (task_at self.old task).in_trap }
        ensures { self.new ≡ with_task self.old task (record (task_at self.old task) { in_trap = false }) }
    {
        self.tasks[task as usize].leave();
    }
}

/// That many tasks with no number connected.
fn starts(alloc: Global, tasks: u32) -> Result<Vec<TaskTraps>, AllocError>
    ensures { IfOk result (λ starts. starts.items ≡ replicate tasks before_all) }
{
    let mut starts = Vec::new(alloc);
    for _task in 0..tasks {
        starts.push(TaskTraps::new(alloc)?)?;
    }
    Ok(starts)
}

/// Each task's interrupts after the changes.
fn fire_each(tasks: &mut Vec<TaskTraps>, changes: &[Watched])
    ensures { tasks.new.items ≡ map (after_changes changes.now) tasks.old.items }
{
    for task in 0..tasks.len() {
        tasks[task].fired(changes);
    }
}
