ghost use Rattle.std.specs.Prelude.{◌≡◌};

use crate::answer::Answer;
use crate::request::Request;

/// One step of a run: an actor's request and its answer. Actors are numbered from 0: the tasks in script order, then
/// the input script.
#[derive(Debug, PartialEq, Eq, Drop)]
pub struct Event {
    pub actor: u32,
    pub request: Request,
    pub answer: Answer,
}

impl Event {
    /// An equal event.
    pub fn copy(&self) -> Event
        ensures { result ≡ self.now }
    {
        Event {
            actor: self.actor,
            request: self.request.copy(),
            answer: self.answer.copy(),
        }
    }
}
