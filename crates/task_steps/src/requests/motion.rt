//! Setpoints of moves.
#![tactic(auto, unfolding(rapid_meaning::specs::Doings::after))]

ghost use Rattle.std.specs.Prelude.{◌≡◌, ◌≤◌, IsTrue, pos, option_map};
ghost use Rattle.rapid_model.specs.Fits.{Fitting, fits_request};
ghost use Rattle.rapid_model.specs.declared.request.Request.{Request};
ghost use Rattle.rapid_meaning.specs.Doings.{or_misfit};
ghost use Rattle.rapid_meaning.specs.Moves.{cap_of, next_setpoint};
ghost use Rattle.stack_code.specs.CodeData.{CodeData};
ghost use Rattle.stack_code.specs.Steps.{act, moves_on};
ghost use Rattle.stack_code.specs.declared.op.Op.TheVariants as ops;
ghost use Rattle.task_steps.specs.Alike.{Turns};
ghost use Rattle.task_steps.specs.Doing.{answered, came, departs, here_of};
ghost use Rattle.task_steps.specs.Points.{way_further, way_of};
ghost use Rattle.task_steps.specs.declared.requests.pending.Pending.TheVariants as pendings;

use crate::requests::departure::Departure;
use crate::requests::moving::Moving;
use crate::requests::pending::Pending;
use crate::steps::done::Done;
use crate::task::Task;
use joint_planner::plan;
use rapid_limits::MOST_AXES;
use rapid_model::{Answer, Fate, Fault, Request};
use rapid_num::{Joints, Num};
use task_code::Code;

impl Task {
    /// Begins the move of the arm, once its position was read.
    pub(crate) fn depart(
        &mut self,
        code: &Code,
        departure: Departure,
        answer: Answer,
    ) -> Option<Done>
        requires fits { (by : Fitting) × (request : Request) × IsTrue (fits_request by request answer) × (by.axes ≡ code.now.axes) }
        ensures phase { self.new.phase ≡ self.old.phase }
        ensures room { self.new.room ≡ self.old.room }
        ensures turns { Turns code.now (answered (here_of code.now self.old.conf) (pendings.Departed departure) answer) self.old.data' result self.new }
    {
        let moving = departed(departure, answer, code.axes())?;
        self.way = Some(moving);
        Some(Done::Next)
    }

    /// Asks for the next setpoint of the move; `past` is the place after the move.
    pub(crate) fn point(&self, past: u32) -> Option<Done>
        ensures { (code : CodeData) → act (here_of code self.now.conf) (ops.Point past) ≡ came (here_of code self.now.conf) result }
    {
        match &self.way {
            Some(moving) => {
                let to = next_setpoint(moving);
                Some(Done::Ask {
                    request: Request::Setpoint { to },
                    then: Pending::Pointed(past),
                })
            }
            None => None,
        }
    }

    /// The setpoint was given, or a zone stopped the move.
    pub(crate) fn pointed(&mut self, past: u32, answer: Answer) -> Option<Done>
        ensures phase { self.new.phase ≡ self.old.phase }
        ensures room { self.new.room ≡ self.old.room }
        ensures turns { (code : CodeData) → Turns code (answered (here_of code self.old.conf) (pendings.Pointed past) answer) self.old.data' result self.new }
    {
        match answer {
            Answer::Given => self.move_on(past),
            Answer::Stopped(_) => Some(Done::End(Fate::Fault(Fault::ZoneStop))),
            _ => None,
        }
    }

    /// Goes on to the Look before the next setpoint, or past the move after the last.
    fn move_on(&mut self, past: u32) -> Option<Done>
        ensures phase { self.new.phase ≡ self.old.phase }
        ensures room { self.new.room ≡ self.old.room }
        ensures turns { (code : CodeData) → Turns code (moves_on (here_of code self.old.conf) past self.old.conf.way) self.old.data' result self.new }
    {
        let moving = self.way.take()?;
        match further(moving) {
            Some(moving) => {
                self.way = Some(moving);
                Some(Done::Next)
            }
            None => Some(Done::Jump(past)),
        }
    }
}

/// The most thousandths of a degree that an axis moves in one setpoint.
fn cap_of(speed: Num) -> i64
    ensures { result ≡ pos (cap_of speed) }
{
    (speed.thousandths().abs() / 1000).max(1)
}

/// The move of an arm with `axes` axes, once its position was read.
fn departed(departure: Departure, answer: Answer, axes: u8) -> Option<Moving>
    requires few { axes ≤ MOST_AXES }
    requires fits { (by : Fitting) × (request : Request) × IsTrue (fits_request by request answer) × (by.axes ≡ axes) }
    ensures { departs axes departure answer ≡ or_misfit (option_map way_of result) }
{
    match answer {
        Answer::At(start) if departure.axes == axes => {
            let Departure { target, speed, .. } = departure;
            let plan = plan(&start, &target, cap_of(speed), usize::from(axes));
            let _count = plan.count();
            Some(Moving { plan, given: 0 })
        }
        _ => None,
    }
}

/// The next setpoint of a move.
fn next_setpoint(moving: &Moving) -> Joints
    ensures { result ≡ next_setpoint (way_of moving.now) }
{
    let _count = moving.plan.count();
    moving.plan.at(moving.given + 1)
}

/// A move once its next setpoint is given; none after the last.
fn further(moving: Moving) -> Option<Moving>
    ensures { option_map way_of result ≡ way_further (way_of moving) }
{
    let Moving { plan, given } = moving;
    let count = plan.count();
    let given = given + 1;
    if given < count {
        Some(Moving { plan, given })
    } else {
        None
    }
}
