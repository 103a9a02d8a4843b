ghost use Rattle.std.specs.Prelude.{◌≡◌, ◌+◌, ◌<◌, ◌^◌, false, option_map};
ghost use Rattle.std.specs.Option.{option_or};
ghost use Rattle.rapid_model.specs.Own.{fate_of, is_hold, is_leave, is_trap};
ghost use Rattle.rapid_model.specs.Truths.{one_if};
ghost use Rattle.rapid_model.specs.declared.request.Request.TheVariants as requests;
ghost use Rattle.cell_meaning.specs.Motion.{is_given, moved};
ghost use Rattle.cell_meaning.specs.Rising.{seen_with};
ghost use Rattle.cell_core.specs.Actors.{actor_with, before};
ghost use Rattle.cell_core.specs.Ready.{IsFew};

use rapid_model::{Answer, Fate, Request};
use rapid_num::Joints;

/// What an actor's own events amount to: the position of its arm, the fate that it ended with, whether its last event
/// is a Hold, how many changes it had seen at its last Hold, how many setpoints its arm was given, how many traps it
/// began and left, how many events it has, and how many of them changed something that tasks wait for.
#[derive(Clone, Copy, Debug)]
pub(crate) struct Actor {
    pub(crate) arm: Option<Joints>,
    pub(crate) end: Option<Fate>,
    pub(crate) held: bool,
    pub(crate) seen: u32,
    pub(crate) given: u32,
    pub(crate) begun: u32,
    pub(crate) left: u32,
    pub(crate) events: u32,
    pub(crate) made: u32,
}

impl Actor {
    /// An actor before its first event.
    pub(crate) fn new(arm: Option<Joints>) -> Actor
        ensures { result ≡ before arm }
    {
        Actor {
            arm,
            end: None,
            held: false,
            seen: 0,
            given: 0,
            begun: 0,
            left: 0,
            events: 0,
            made: 0,
        }
    }

    /// Counts one more event of the actor. `changes`: whether it changed something that tasks wait for.
    pub(crate) fn count(&mut self, changes: bool, request: &Request, answer: &Answer)
        requires { IsFew self.old }
        ensures { self.new ≡ actor_with self.old changes request.now answer.now }
    {
        go_on(&mut self.arm, request, answer);
        self.end = end_after(self.end, request);
        self.held = is_hold(request);
        self.seen = seen_after(self.seen, request);
        self.given = one_more(self.given, is_given(request, answer));
        self.begun = one_more(self.begun, is_trap(answer));
        self.left = one_more(self.left, is_leave(request));
        self.events += 1;
        self.made = one_more(self.made, changes);
    }

    /// Counts one more event of the actor: a Look, which changes nothing that tasks wait for.
    pub(crate) fn count_look(&mut self, answer: &Answer)
        requires { IsFew self.old }
        ensures { self.new ≡ actor_with self.old false requests.Look answer.now }
    {
        self.held = false;
        self.begun = one_more(self.begun, is_trap(answer));
        self.events += 1;
    }
}

/// One more if `more` holds.
pub(crate) fn one_more(count: u32, more: bool) -> u32
    requires { count < 2 ^ 31 }
    ensures { result ≡ count + one_if more }
{
    if more { count + 1 } else { count }
}

/// Moves an arm to a setpoint that it was given.
fn go_on(arm: &mut Option<Joints>, request: &Request, answer: &Answer)
    ensures { arm.new ≡ option_map (λ position. moved position request.now answer.now) arm.old }
{
    match (request, answer) {
        (Request::Setpoint { to }, Answer::Given) if arm.is_some() => *arm = Some(*to),
        _ => {}
    }
}

fn end_after(end: Option<Fate>, request: &Request) -> Option<Fate>
    ensures { result ≡ option_or end (fate_of request.now) }
{
    match (end, request) {
        (None, Request::End { fate }) => Some(*fate),
        _ => end,
    }
}

fn seen_after(seen: u32, request: &Request) -> u32
    ensures { result ≡ seen_with seen request.now }
{
    match request {
        Request::Hold { seen } => *seen,
        _ => seen,
    }
}

fn is_given(request: &Request, answer: &Answer) -> bool
    ensures { result ≡ is_given request.now answer.now }
{
    match (request, answer) {
        (Request::Setpoint { .. }, Answer::Given) => true,
        _ => false,
    }
}

fn is_hold(request: &Request) -> bool
    ensures { result ≡ is_hold request.now }
{
    match request {
        Request::Hold { .. } => true,
        _ => false,
    }
}

fn is_leave(request: &Request) -> bool
    ensures { result ≡ is_leave request.now }
{
    match request {
        Request::Leave => true,
        _ => false,
    }
}

fn is_trap(answer: &Answer) -> bool
    ensures { result ≡ is_trap answer.now }
{
    match answer {
        Answer::Trap { .. } => true,
        _ => false,
    }
}
