//! Which interrupts of a task fire.

ghost use Rattle.std.specs.Prelude.{◌≡◌, map};
ghost use Rattle.std.specs.List.{list_any};
ghost use Rattle.trap_dispatch.specs.Firing.{after_firing, after_its_firing, fired_numbers, fires, is_change, is_on};

use crate::connected::Connected;
use crate::order::Order;
use arrayvec::ArrayVec;
use rapid_limits::MOST_INTERRUPTS;
use rapid_model::Watched;

/// The numbers that the changes fire, ascending.
pub(crate) fn fired_numbers(
    numbers: &[Option<Connected>; MOST_INTERRUPTS],
    changes: &[Watched],
) -> ArrayVec<u8, MOST_INTERRUPTS>
    ensures { result.items ≡ fired_numbers changes.now numbers.now }
{
    let mut fired = ArrayVec::new();
    for index in 0..MOST_INTERRUPTS {
        if fires(numbers[index], changes) {
            fired.push(index as u8 + 1);
        }
    }
    fired
}

/// Ends the Single orders that fire.
pub(crate) fn end_fired(numbers: &mut [Option<Connected>; MOST_INTERRUPTS], changes: &[Watched])
    ensures { numbers.new ≡ map (after_firing changes.now) numbers.old }
{
    for index in 0..MOST_INTERRUPTS {
        numbers[index] = after_firing(numbers[index], changes);
    }
}

/// The entry of a number after the changes: a Single order that fires ends.
fn after_firing(entry: Option<Connected>, changes: &[Watched]) -> Option<Connected>
    ensures { result ≡ after_firing changes.now entry }
{
    match entry {
        Some(connected) if fires(entry, changes) => Some(Connected {
            order: after_its_firing(connected.order),
            ..connected
        }),
        _ => entry,
    }
}

/// An order after it fires.
fn after_its_firing(order: Option<Order>) -> Option<Order>
    ensures { result ≡ after_its_firing order }
{
    order.filter(|order| !order.single)
}

/// Whether the interrupt, if there is one, fires: it has an order on one of the changes and does not sleep.
fn fires(entry: Option<Connected>, changes: &[Watched]) -> bool
    ensures { result ≡ fires changes.now entry }
{
    match entry {
        Some(connected) => !connected.asleep && is_on(connected.order, changes),
        None => false,
    }
}

/// Whether the order, if there is one, is on one of the changes.
fn is_on(order: Option<Order>, changes: &[Watched]) -> bool
    ensures { result ≡ is_on changes.now order }
{
    match order {
        Some(order) => is_one_of(order.on, changes),
        None => false,
    }
}

/// Whether what is watched is one of the changes.
fn is_one_of(on: Watched, changes: &[Watched]) -> bool
    ensures { result ≡ list_any (is_change on) changes.now }
{
    changes.iter().any(|change| is_change(*change, on))
}

/// Whether the change is the one that is watched.
fn is_change(change: Watched, on: Watched) -> bool
    ensures { result ≡ is_change on change }
{
    change == on
}
