ghost use Rattle.std.specs.Prelude.{◌≡◌, ◌≢◌, IsTrue, Some, IsSome};
ghost use Rattle.rapid_model.specs.Fits.{Fitting, fits_request};
ghost use Rattle.rapid_model.specs.declared.request.Request.{Request};
ghost use Rattle.task_code.specs.Leads.{Runs};
ghost use Rattle.task_steps.specs.Alike.{Follows, Turns};
ghost use Rattle.task_steps.specs.Doing as doing;
ghost use Rattle.task_steps.specs.Doing.{here_of};
ghost use Rattle.task_steps.specs.Seen.{request_in, room_of};
ghost use Rattle.task_steps.specs.declared.requests.pending.Pending.{Pending};
ghost use Rattle.task_steps.specs.declared.requests.pending.Pending.TheVariants as pendings;
ghost use Rattle.task_steps.specs.Phases as phases;

use crate::requests::answers;
use crate::requests::pending::Pending;
use crate::routines::loaded::LoadedCode;
use crate::steps::done::Done;
use crate::steps::stage::Stage;
use crate::task::Task;
use rapid_model::{Answer, Request};
use std::mem;
use task_code::Code;

impl Task {
    /// Goes on with the answer to what was asked.
    pub fn reply(&mut self, loaded: &LoadedCode, answer: Answer)
        requires asking { (request : Request) × (then : Pending) × (self.old.phase ≡ phases.Asking request then) }
        requires room { self.old.room ≡ room_of loaded.now }
        requires fits { (by : Fitting) × (request : Request) × IsTrue (fits_request by request answer) × (by.axes ≡ loaded.now.axes) }
        requires runs { (request : Request) (then : Pending) → self.old.phase ≡ phases.Asking request then → Runs loaded.now (doing.answered (here_of loaded.now self.old.conf) then answer) self.old.data' }
        ensures room { self.new.room ≡ self.old.room }
        ensures begun { self.new.phase ≢ phases.New }
        ensures on { (request : Request) (then : Pending) → self.old.phase ≡ phases.Asking request then → Follows loaded.now (doing.answered (here_of loaded.now self.old.conf) then answer) self.old.data' self.new }
    {
        match self.stage {
            Stage::Asking => match self.then {
                Pending::Looked => self.take_look(loaded, answer),
                Pending::Read => self.take_value(loaded.code(), answer),
                Pending::Confirmed => self.take_ok(loaded.code(), answer),
                _ => self.take_answer(loaded, answer),
            },
            Stage::New => unreachable!(),
            Stage::Going => unreachable!(),
            Stage::Over(_) => unreachable!(),
        }
    }

    /// Goes on with the answer to a Look.
    fn take_look(&mut self, loaded: &LoadedCode, answer: Answer)
        requires room { self.old.room ≡ room_of loaded.now }
        requires runs { Runs loaded.now (doing.answered (here_of loaded.now self.old.conf) pendings.Looked answer) self.old.data' }
        ensures room { self.new.room ≡ self.old.room }
        ensures begun { self.new.phase ≢ phases.New }
        ensures on { Follows loaded.now (doing.answered (here_of loaded.now self.old.conf) pendings.Looked answer) self.old.data' self.new }
    {
        self.stage = Stage::Going;
        match answer {
            Answer::Go { seen } => {
                self.frames.set_seen(seen);
                self.go_next(loaded.code());
            }
            other => {
                let done = self.looked(loaded, other);
                self.commit(loaded.code(), done);
            }
        }
    }

    /// Goes on with a value that was read.
    fn take_value(&mut self, code: &Code, answer: Answer)
        requires room { self.old.room ≡ room_of code.now }
        requires runs { Runs code.now (doing.answered (here_of code.now self.old.conf) pendings.Read answer) self.old.data' }
        ensures room { self.new.room ≡ self.old.room }
        ensures begun { self.new.phase ≢ phases.New }
        ensures on { Follows code.now (doing.answered (here_of code.now self.old.conf) pendings.Read answer) self.old.data' self.new }
    {
        self.stage = Stage::Going;
        match answer {
            Answer::Val(value) => {
                self.put_value(code, value);
                self.go_next(code);
            }
            other => self.commit(code, answers::read(other)),
        }
    }

    /// Goes on once a request is confirmed.
    fn take_ok(&mut self, code: &Code, answer: Answer)
        requires room { self.old.room ≡ room_of code.now }
        requires runs { Runs code.now (doing.answered (here_of code.now self.old.conf) pendings.Confirmed answer) self.old.data' }
        ensures room { self.new.room ≡ self.old.room }
        ensures begun { self.new.phase ≢ phases.New }
        ensures on { Follows code.now (doing.answered (here_of code.now self.old.conf) pendings.Confirmed answer) self.old.data' self.new }
    {
        self.stage = Stage::Going;
        match answer {
            Answer::Ok => self.go_next(code),
            other => self.commit(code, answers::confirmed(other)),
        }
    }

    /// Goes on with the answer to any request.
    fn take_answer(&mut self, loaded: &LoadedCode, answer: Answer)
        requires asking { (request : Request) × (then : Pending) × (self.old.phase ≡ phases.Asking request then) }
        requires room { self.old.room ≡ room_of loaded.now }
        requires fits { (by : Fitting) × (request : Request) × IsTrue (fits_request by request answer) × (by.axes ≡ loaded.now.axes) }
        requires runs { (request : Request) (then : Pending) → self.old.phase ≡ phases.Asking request then → Runs loaded.now (doing.answered (here_of loaded.now self.old.conf) then answer) self.old.data' }
        ensures room { self.new.room ≡ self.old.room }
        ensures begun { self.new.phase ≢ phases.New }
        ensures on { (request : Request) (then : Pending) → self.old.phase ≡ phases.Asking request then → Follows loaded.now (doing.answered (here_of loaded.now self.old.conf) then answer) self.old.data' self.new }
    {
        match self.stage {
            Stage::Asking => {
                self.stage = Stage::Going;
                let then = mem::replace(&mut self.then, Pending::Confirmed);
                let done = self.answered(loaded, then, answer);
                self.commit(loaded.code(), done);
            }
            Stage::New => unreachable!(),
            Stage::Going => unreachable!(),
            Stage::Over(_) => unreachable!(),
        }
    }

    /// The outcome of an answer.
    fn answered(&mut self, loaded: &LoadedCode, then: Pending, answer: Answer) -> Option<Done>
        requires fits { (by : Fitting) × (request : Request) × IsTrue (fits_request by request answer) × (by.axes ≡ loaded.now.axes) }
        ensures phase { self.new.phase ≡ self.old.phase }
        ensures room { self.new.room ≡ self.old.room }
        ensures turns { Turns loaded.now (doing.answered (here_of loaded.now self.old.conf) then answer) self.old.data' result self.new }
    {
        match then {
            Pending::Looked => self.looked(loaded, answer),
            Pending::Read => answers::read(answer),
            Pending::Gathered(gathering) => self.gathered(loaded.code(), gathering, answer),
            Pending::Confirmed => answers::confirmed(answer),
            Pending::Tested => answers::tested(answer),
            Pending::Sensed => answers::sensed(answer),
            Pending::Written => answers::written(answer),
            Pending::Arrived => answers::arrived(answer),
            Pending::Located => answers::located(answer),
            Pending::Departed(departure) => self.depart(loaded.code(), departure, answer),
            Pending::Pointed(past) => self.pointed(past, answer),
            Pending::Connected(place) => self.connected(place, answer),
            Pending::Ordered => answers::ordered(answer),
            Pending::Known => answers::known(answer),
            Pending::Supervised(place) => self.supervised(place, answer),
            Pending::Zoned => answers::zoned(answer),
            Pending::Freed(place) => self.freed(place, answer),
            Pending::Held(to) => answers::held(to, answer),
            Pending::Risen(to) => answers::risen(to, answer),
            Pending::Left => self.left(answer),
        }
    }

    /// The request that is due.
    pub fn due(&self) -> &Request
        requires { IsSome (request_in self.now.phase) }
        ensures { request_in self.now.phase ≡ Some result.now }
    {
        &self.asked
    }
}
