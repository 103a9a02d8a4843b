ghost use Rattle.std.specs.Prelude.{◌≡◌, Some, is_some, IfSome, IsTrue};
ghost use Rattle.rapid_model.specs.declared.answer.Answer.TheVariants as answers;
ghost use Rattle.rapid_model.specs.declared.request.Request.TheVariants as requests;
ghost use Rattle.history_pages.specs.Packing.{event_of};
ghost use Rattle.history_pages.specs.Pages.{given_in};

use crate::answer_form::AnswerForm;
use crate::request_form::RequestForm;
use crate::words::{Words, nums_from};
use rapid_model::{Answer, Event, Request};
use rapid_num::Joints;

/// Everything in an event except its words, and the index of its first word. 24 bytes.
#[derive(Clone, Copy, Debug)]
pub(crate) struct Head {
    pub(crate) actor: u32,
    pub(crate) from: u32,
    pub(crate) request: RequestForm,
    pub(crate) answer: AnswerForm,
}

const _: () = prove!(size_of::<Head>() == 24);

impl Head {
    ghost use Rattle.history_pages.specs.Packing.{event_in};

    /// The event, which the words spell. Nearly all events of a run are Looks that may go on and setpoints that were
    /// given: these are made without the room of an `Option`.
    pub(crate) fn spelled(self, words: &Words) -> Event
        requires { IsTrue (is_some (event_in words.now.items self)) }
        ensures { event_in words.now.items self ≡ Some result }
    {
        match (self.request, self.answer) {
            (RequestForm::Look { told }, AnswerForm::Go) => looked(self.actor, told),
            (RequestForm::Setpoint, AnswerForm::Given) => {
                let axis = nums_from(words, self.from as usize).unwrap();
                given(self.actor, Joints { axis })
            }
            _ => self.event(words).unwrap(),
        }
    }

    /// The actor and the joints of the event, which the words spell, if it is a setpoint that was given.
    pub(crate) fn given(self, words: &Words) -> Option<(u32, Joints)>
        requires { IsTrue (is_some (event_in words.now.items self)) }
        ensures { IfSome (event_in words.now.items self) (λ event. result ≡ given_in event) }
    {
        match self.request {
            RequestForm::Setpoint => match self.answer {
                AnswerForm::Given => {
                    let axis = nums_from(words, self.from as usize).unwrap();
                    Some((self.actor, Joints { axis }))
                }
                _ => None,
            },
            _ => None,
        }
    }

    /// The event; `None` if the words spell none.
    pub(crate) fn event(self, words: &Words) -> Option<Event>
        ensures { result ≡ event_in words.now.items self }
    {
        let from = self.from as usize;
        let request = self.request.request(words, from)?;
        let answer = self.answer.answer(self.request.told(), words, from)?;
        Some(Event {
            actor: self.actor,
            request,
            answer,
        })
    }
}

/// A Look that may go on.
fn looked(actor: u32, seen: u32) -> Event
    ensures { result ≡ event_of actor requests.Look (answers.Go seen) }
{
    Event {
        actor,
        request: Request::Look,
        answer: Answer::Go { seen },
    }
}

/// A setpoint that was given.
fn given(actor: u32, to: Joints) -> Event
    ensures { result ≡ event_of actor (requests.Setpoint to) answers.Given }
{
    Event {
        actor,
        request: Request::Setpoint { to },
        answer: Answer::Given,
    }
}
