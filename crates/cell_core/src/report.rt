//! The report of a run.

ghost use Rattle.std.specs.Prelude.{◌≡◌, ◌≤◌, [], length, IfSome};
ghost use Rattle.std.specs.Vec.{vec_capacity};
ghost use Rattle.cell_core.specs.Reading.{fates_of, standing};

use crate::boards::Boards;
use rapid_model::{Event, Fate};
use std::alloc::Global;

/// Room for this many events and this many fates. None only if an allocation fails.
pub(crate) fn reserve(alloc: Global, events: u32, fates: u32) -> Option<(Vec<Event>, Vec<Fate>)>
    ensures none { IfSome result (λ r. (r.0.items ≡ []) × (r.1.items ≡ [])) }
    ensures room { IfSome result (λ r. (vec_capacity r.0 ≡ events) × (vec_capacity r.1 ≡ fates)) }
{
    let events = Vec::with_capacity(alloc, events as usize).ok()?;
    let fates = Vec::with_capacity(alloc, fates as usize).ok()?;
    Some((events, fates))
}

/// Appends how each of this many tasks stands, in the room reserved for it.
#[tactic(auto, using(crate::proofs::Looks::fates_more))]
pub(crate) fn tell(boards: &Boards, tasks: u32, spent: bool, fates: &mut Vec<Fate>)
    requires none { fates.old.items ≡ [] }
    requires room { tasks ≤ vec_capacity fates.old }
    requires actors { tasks ≤ length boards.now.actors }
    ensures { fates.new.items ≡ fates_of spent tasks boards.now.actors }
{
    for task in 0..tasks {
        fates.push_reserved(standing(spent, boards.actor(task).end));
    }
}

/// How a task with this end stands, given whether the steps are spent.
pub(crate) fn standing(spent: bool, end: Option<Fate>) -> Fate
    ensures { result ≡ standing spent end }
{
    match end {
        Some(fate) => fate,
        None if spent => Fate::Cut,
        None => Fate::Held,
    }
}
