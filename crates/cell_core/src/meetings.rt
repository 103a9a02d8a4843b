//! Arrivals at meetings (RAPID Instructions: WaitSyncTask).

ghost use Rattle.std.specs.Prelude.{◌≡◌, if◌then◌else◌};
ghost use Rattle.rapid_model.specs.declared.request.Request.TheVariants as requests;
ghost use Rattle.sync_tasks.specs.Meetings.{stand_at};
ghost use Rattle.cell_meaning.specs.Meetings.{meets, stands_with};
ghost use Rattle.cell_core.specs.Changes.{arrival_change};
ghost use Rattle.cell_core.specs.Ready.{CanArrive};

use crate::change::Change;
use crate::outcome::Outcome;
use rapid_model::Answer;
use sync_tasks::Meetings;

/// The task arrives at the meeting with the tasks of a set, and goes on if it meets them all.
pub(crate) fn arrive(meetings: &mut Meetings, actor: u32, meeting: u32, tasks: u16) -> Outcome
    requires { CanArrive meetings.old actor meeting }
    ensures answer { result.answer ≡ (if meets meetings.old actor meeting tasks then Answer.Met else Answer.Apart) }
    ensures change { result.change ≡ arrival_change (stand_at meetings.old actor meeting).waits }
    ensures meetings { meetings.new ≡ stands_with meetings.old actor (requests.Arrive meeting tasks) result.answer }
{
    let arrived = meetings.arrive(actor, meeting, tasks);
    let answer = of_arrival(arrived.met);
    let change = Change::of_arrival(!arrived.fresh);
    Outcome { answer, change }
}

fn of_arrival(met: bool) -> Answer
    ensures { result ≡ (if met then Answer.Met else Answer.Apart) }
{
    if met { Answer::Met } else { Answer::Apart }
}
