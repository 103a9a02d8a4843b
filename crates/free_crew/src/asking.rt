//! One request of a task.
ghost use Rattle.std.specs.Prelude.{◌≡◌, Some, IsSome, is_some, false};
ghost use Rattle.rapid_model.specs.Own.{fate_of, is_rise};
ghost use Rattle.rapid_model.specs.declared.request.Request.{Request};
ghost use Rattle.rapid_model.specs.declared.request.Request.TheVariants as requests;
ghost use Rattle.free_crew.specs.Amid.{GoesOnAs, IsAmid, is_stopped};

use crate::job::Job;
use crate::standing::Standing;
use cell_crew::TaskMachine;
use cell_gate::{Acted, Gate, Now};
use outside::Pace;
use rapid_model::{Answer, Request};
use std::sync::Wait;

impl<M: TaskMachine> Job<M> {
    /// Makes the request that is due, and goes on with the answer. A held task waits if it cannot go on yet.
    pub(crate) fn step<R: Wait, P: Pace>(&mut self, rt: &R, gate: &Gate, pace: &P, task: u32)
        requires amid { IsAmid M.program M.fits M.asks M.stands_for M.due gate.now task self.old }
        requires going { is_stopped self.old.standing ≡ false }
        ensures { GoesOnAs M.program M.fits M.asks M.stands_for M.due gate.now task self.old self.new }
    {
        self.ask_due(rt, gate, task);
        if self.standing.is_answered() {
            pace.pause(task);
        }
    }

    fn ask_due<R: Wait>(&mut self, rt: &R, gate: &Gate, task: u32)
        requires amid { IsAmid M.program M.fits M.asks M.stands_for M.due gate.now task self.old }
        requires going { is_stopped self.old.standing ≡ false }
        ensures { GoesOnAs M.program M.fits M.asks M.stands_for M.due gate.now task self.old self.new }
    {
        if is_rise(self.machine.last()) {
            self.rise(rt, gate, task);
        } else {
            self.ask(rt, gate, task);
        }
    }

    /// Makes the request that is due, which is always enabled.
    fn ask<R: Wait>(&mut self, rt: &R, gate: &Gate, task: u32)
        requires amid { IsAmid M.program M.fits M.asks M.stands_for M.due gate.now task self.old }
        requires going { is_stopped self.old.standing ≡ false }
        requires due { IsSome (M.due self.old.machine) }
        requires plain { (request : Request) → M.due self.old.machine ≡ Some request → is_rise request ≡ false }
        ensures { GoesOnAs M.program M.fits M.asks M.stands_for M.due gate.now task self.old self.new }
    {
        let request = self.machine.last();
        let ends = is_end(request);
        let acted = gate.act(rt, &mut self.pass, request);
        match acted {
            Acted::Spent => self.standing = Standing::Cut,
            Acted::Done(answer) => {
                // A machine gets no answer to its End.
                if ends {
                    self.standing = Standing::Ended;
                } else {
                    self.machine.next(answer);
                    self.standing = Standing::Going;
                }
            }
        }
    }

    /// Asks to go on after a Hold.
    fn rise<R: Wait>(&mut self, rt: &R, gate: &Gate, task: u32)
        requires amid { IsAmid M.program M.fits M.asks M.stands_for M.due gate.now task self.old }
        requires going { is_stopped self.old.standing ≡ false }
        requires due { M.due self.old.machine ≡ Some requests.Rise }
        ensures { GoesOnAs M.program M.fits M.asks M.stands_for M.due gate.now task self.old self.new }
    {
        match gate.rise_now(rt, &mut self.pass) {
            Now::Woken => {
                self.machine.next(Answer::Ok);
                self.standing = Standing::Going;
            }
            Now::NotYet => self.standing = Standing::Waiting,
            Now::Stalled => self.standing = Standing::Stalled,
            Now::Spent => self.standing = Standing::Cut,
        }
    }
}

/// Whether a request is a Rise.
fn is_rise(request: &Request) -> bool
    ensures { result ≡ is_rise request.now }
{
    matches!(request, Request::Rise)
}

/// Whether a request is an End.
fn is_end(request: &Request) -> bool
    ensures { result ≡ is_some (fate_of request.now) }
{
    matches!(request, Request::End { .. })
}
