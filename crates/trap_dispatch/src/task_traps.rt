ghost use Rattle.std.specs.Prelude.{◌≡◌, ◌≤◌, ◌+◌, ◌++◌, ◌↔◌, ◌==◌, filter, length, nat_lt, take, not, true, false, IfOk, IsSome, IsNone, IsErr, IsSomeAnd, OnOk, OnErr, Err};
ghost use Rattle.circular_buffer.specs.Buffer.{buffer};
ghost use Rattle.trap_dispatch.specs.Firing.{connected_at};
ghost use Rattle.trap_dispatch.specs.Queues.{turned};
ghost use Rattle.trap_dispatch.specs.Tasks.{before_all, connect_answer, fresh, is_due, look_answer, after_look, after_changes, deleted, ordered, slept, with_number};
ghost use Rattle.trap_dispatch.specs.declared.order_fault.OrderFault.TheVariants as order_faults;

use crate::connect_fault::ConnectFault;
use crate::connected::{Connected, connected_at, free_index};
use crate::due::Due;
use crate::firing::{end_fired, fired_numbers};
use crate::order::Order;
use crate::order_fault::OrderFault;
use crate::unknown::Unknown;
use circular_buffer::HeapCircularBuffer;
use rapid_limits::{LONGEST_QUEUE, MOST_INTERRUPTS};
use rapid_model::Watched;
use std::alloc::{AllocError, Global};
use std::marker::Model;

/// The interrupts of one task. Contracts see its entries, index n - 1 for number n, the numbers that wait, and whether
/// the queue overflowed, interrupts are disabled, and the task is in a trap.
#[derive(Drop)]
pub(crate) struct TaskTraps {
    numbers: [Option<Connected>; MOST_INTERRUPTS],
    queue: HeapCircularBuffer<u8>,
    flood: bool,
    disabled: bool,
    in_trap: bool,
}

impl Model for TaskTraps {
    ghost use Rattle.std.specs.Prelude.{◌≡◌};
    ghost use Rattle.trap_dispatch.specs.Tasks.{TaskData, IsTask};
    ghost use Rattle.rapid_limits.specs.declared.TheConstants.{LONGEST_QUEUE};

    ghost Value = { TaskData };

    ghost view = { λ t. record { numbers = t.numbers; queue = t.queue.items; flood = t.flood; disabled = t.disabled; in_trap = t.in_trap } };

    // The queue has room for 1,024 numbers, and each number in it is connected.
    ghost invariant = { λ t. (t.queue.capacity ≡ LONGEST_QUEUE) × IsTask t.numbers t.queue.items };
}

impl TaskTraps {
    /// No number is connected, and the queue has room for 1,024. Fails only if an allocation fails.
    pub(crate) fn new(alloc: Global) -> Result<TaskTraps, AllocError>
        ensures { IfOk result (λ t. t ≡ before_all) }
    {
        Ok(TaskTraps {
            numbers: [None; MOST_INTERRUPTS],
            queue: HeapCircularBuffer::with_capacity(alloc, LONGEST_QUEUE)?,
            flood: false,
            disabled: false,
            in_trap: false,
        })
    }

    /// Connects the least free number with a trap.
    pub(crate) fn connect(&mut self, old: u8, trap: u32) -> Result<u8, ConnectFault>
        ensures answer { result ≡ connect_answer self.old old }
        ensures ok { IfOk result (λ number. self.new ≡ with_number self.old number (fresh trap)) }
        ensures err { OnErr result (self.new ≡ self.old) }
    {
        if connected_at(&self.numbers, old).is_some() {
            return Err(ConnectFault::Already);
        }
        match free_index(&self.numbers) {
            Some(index) => {
                self.numbers[index] = Some(Connected {
                    trap,
                    order: None,
                    asleep: false,
                });
                Ok(index as u8 + 1)
            }
            None => Err(ConnectFault::NoMore),
        }
    }

    /// Orders the interrupt to watch a signal or a persistent.
    pub(crate) fn order(&mut self, number: u8, on: Watched, single: bool) -> Result<(), OrderFault>
        ensures unknown { (result ≡ Err order_faults.Unknown) ↔ IsNone (connected_at self.old.numbers number) }
        ensures already { (result ≡ Err order_faults.Already) ↔ IsSomeAnd (connected_at self.old.numbers number) (λ c. IsSome c.order) }
        ensures ok { OnOk result (self.new ≡ ordered self.old number (record { on = on; single = single })) }
        ensures err { OnErr result (self.new ≡ self.old) }
    {
        let Some(connected) = connected_at(&self.numbers, number) else {
            return Err(OrderFault::Unknown);
        };
        if connected.order.is_some() {
            return Err(OrderFault::Already);
        }
        let order = Some(Order { on, single });
        self.numbers[number as usize - 1] = Some(Connected { order, ..connected });
        Ok(())
    }

    /// Puts the interrupt to sleep, or wakes it up.
    pub(crate) fn set_asleep(&mut self, number: u8, asleep: bool) -> Result<(), Unknown>
        ensures unknown { IsErr result ↔ IsNone (connected_at self.old.numbers number) }
        ensures ok { OnOk result (self.new ≡ slept self.old number asleep) }
        ensures err { OnErr result (self.new ≡ self.old) }
    {
        let Some(connected) = connected_at(&self.numbers, number) else {
            return Err(Unknown);
        };
        self.numbers[number as usize - 1] = Some(Connected {
            asleep,
            ..connected
        });
        Ok(())
    }

    /// Frees the number, with its order and its entries in the queue.
    pub(crate) fn delete(&mut self, number: u8) -> Result<(), Unknown>
        ensures unknown { IsErr result ↔ IsNone (connected_at self.old.numbers number) }
        ensures ok { OnOk result (self.new ≡ deleted self.old number) }
        ensures err { OnErr result (self.new ≡ self.old) }
    {
        if connected_at(&self.numbers, number).is_none() {
            return Err(Unknown);
        }
        self.numbers[number as usize - 1] = None;
        take_out(&mut self.queue, number);
        Ok(())
    }

    /// Disables or enables the interrupts.
    pub(crate) fn set_disabled(&mut self, disabled: bool)
        ensures { self.new ≡ record self.old { disabled = disabled } }
    {
        self.disabled = disabled;
    }

    /// Queues the interrupts that the changes fire, while there is room.
    pub(crate) fn fired(&mut self, changes: &[Watched])
        ensures { self.new ≡ after_changes changes.now self.old }
    {
        let fired = fired_numbers(&self.numbers, changes);
        if fired.is_empty() {
            return;
        }
        self.flood |= enqueue(&mut self.queue, fired.as_slice());
        end_fired(&mut self.numbers, changes);
    }

    /// Takes the first number off the queue, if its trap may run.
    pub(crate) fn look(&mut self) -> Due
        ensures answer { result ≡ look_answer self.old }
        ensures after { self.new ≡ after_look self.old }
    {
        if self.flood {
            return Due::Flood;
        }
        if self.in_trap || self.disabled {
            return Due::None;
        }
        let Some(number) = self.queue.pop_front() else {
            return Due::None;
        };
        self.in_trap = true;
        let trap = connected_at(&self.numbers, number).unwrap().trap;
        Due::Trap { number, trap }
    }

    /// Whether `look` would return anything but `None`.
    pub(crate) fn due(&self) -> bool
        ensures { result ≡ is_due (look_answer self.now) }
    {
        self.flood || !self.in_trap && !self.disabled && !self.queue.is_empty()
    }

    /// Ends the trap.
    pub(crate) fn leave(&mut self)
        ensures { self.new ≡ record self.old { in_trap = false } }
    {
        self.in_trap = false;
    }
}

/// Queues the numbers while there is room, and returns whether one found none.
fn enqueue(queue: &mut HeapCircularBuffer<u8>, fired: &[u8]) -> bool
    requires room { length queue.old.items ≤ queue.old.capacity }
    ensures queued { queue.new ≡ buffer (take queue.old.capacity (queue.old.items ++ fired.now)) queue.old.capacity }
    ensures flood { result ≡ nat_lt queue.old.capacity (length queue.old.items + length fired.now) }
{
    queue.fill_from_slice(fired) < fired.len()
}

/// Removes the number from the queue; the others keep their order.
fn take_out(queue: &mut HeapCircularBuffer<u8>, number: u8)
    requires room { length queue.old.items ≤ queue.old.capacity }
    ensures { queue.new ≡ buffer (filter (λ n. not (n == number)) queue.old.items) queue.old.capacity }
{
    for _turn in 0..queue.len() {
        turn(queue, number);
    }
}

/// Removes the first number from the queue if it is that number; otherwise moves it to the end.
fn turn(queue: &mut HeapCircularBuffer<u8>, number: u8)
    requires room { length queue.old.items ≤ queue.old.capacity }
    ensures { queue.new ≡ buffer (turned number queue.old.items) queue.old.capacity }
{
    if let Some(first) = queue.pop_front() {
        if first != number {
            queue.push_back(first);
        }
    }
}
