//! Events that are made where they go, in the room of a list.

ghost use Rattle.std.specs.Prelude.{◌≡◌, ◌<◌, ◌++◌, [], ◌∷◌, is_some, IfSome, IsTrue};
ghost use Rattle.std.specs.Vec.{vec_capacity, vec_len};
ghost use Rattle.rapid_model.specs.declared.answer.Answer.TheVariants as answers;
ghost use Rattle.rapid_model.specs.declared.request.Request.TheVariants as requests;
ghost use Rattle.history_pages.specs.Packing.{event_in, event_of};

use crate::answer_form::AnswerForm;
use crate::head::Head;
use crate::request_form::RequestForm;
use crate::words::{Words, nums_from};
use rapid_model::{Answer, Event, Request};
use rapid_num::Joints;

/// Appends the event of a head, which the words spell, to a list that has room for it.
pub(crate) fn copy_event(head: Head, words: &Words, events: &mut Vec<Event>)
    requires spelled { IsTrue (is_some (event_in words.now.items head)) }
    requires room { vec_len events.old < vec_capacity events.old }
    ensures items { IfSome (event_in words.now.items head) (λ event. events.new.items ≡ events.old.items ++ event ∷ []) }
    ensures capacity { vec_capacity events.new ≡ vec_capacity events.old }
{
    match (head.request, head.answer) {
        (RequestForm::Look { told }, AnswerForm::Go) => copy_look(head.actor, told, events),
        (RequestForm::Setpoint, AnswerForm::Given) => {
            let axis = nums_from(words, head.from as usize).unwrap();
            copy_setpoint(head.actor, Joints { axis }, events);
        }
        _ => copy_other(head, words, events),
    }
}

/// A Look that may go on.
fn copy_look(actor: u32, seen: u32, events: &mut Vec<Event>)
    requires { vec_len events.old < vec_capacity events.old }
    ensures items { events.new.items ≡ events.old.items ++ event_of actor requests.Look (answers.Go seen) ∷ [] }
    ensures capacity { vec_capacity events.new ≡ vec_capacity events.old }
{
    events.push_reserved(Event {
        actor,
        request: Request::Look,
        answer: Answer::Go { seen },
    });
}

/// A setpoint that was given.
fn copy_setpoint(actor: u32, to: Joints, events: &mut Vec<Event>)
    requires { vec_len events.old < vec_capacity events.old }
    ensures items { events.new.items ≡ events.old.items ++ event_of actor (requests.Setpoint to) answers.Given ∷ [] }
    ensures capacity { vec_capacity events.new ≡ vec_capacity events.old }
{
    events.push_reserved(Event {
        actor,
        request: Request::Setpoint { to },
        answer: Answer::Given,
    });
}

/// Any event.
fn copy_other(head: Head, words: &Words, events: &mut Vec<Event>)
    requires spelled { IsTrue (is_some (event_in words.now.items head)) }
    requires room { vec_len events.old < vec_capacity events.old }
    ensures items { IfSome (event_in words.now.items head) (λ event. events.new.items ≡ events.old.items ++ event ∷ []) }
    ensures capacity { vec_capacity events.new ≡ vec_capacity events.old }
{
    events.push_reserved(head.event(words).unwrap());
}
