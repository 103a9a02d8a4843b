//! The method for each operation that is not done in place.

ghost use Rattle.std.specs.Prelude.{◌≡◌, ◌<◌, length};
ghost use Rattle.stack_code.specs.Steps.{act};
ghost use Rattle.task_steps.specs.Alike.{Turns};
ghost use Rattle.task_steps.specs.Doing.{here_of};
ghost use Rattle.task_steps.specs.Others.{IsOther};

use crate::operands::pushing::{exited, not_returned, pers_place};
use crate::requests::requests::{position, signal_read};
use crate::routines::loaded::LoadedCode;
use crate::steps::done::Done;
use crate::task::Task;
use stack_code::Op;

impl Task {
    /// The outcome of an operation that is not done in place, if the task is at it.
    pub(crate) fn operate(&mut self, loaded: &LoadedCode, op: &Op) -> Option<Done>
        requires other { IsOther op.now }
        requires within { self.old.conf.pc < length loaded.now.ops }
        ensures phase { self.new.phase ≡ self.old.phase }
        ensures room { self.new.room ≡ self.old.room }
        ensures turns { Turns loaded.now (act (here_of loaded.now self.old.conf) op.now) self.old.data' result self.new }
    {
        match op {
            Op::Errno => self.last_error(),
            Op::Drop => self.drop_top(),
            Op::Dup => self.dup(),
            Op::Over => self.over(),
            Op::Pers(pers) => pers_place(*pers),
            Op::Ref(at) => self.reference(*at),
            Op::Index(len) => self.index(*len),
            Op::Part(name) => self.narrow(*name),
            Op::GetSignal(signal) => signal_read(*signal),
            Op::PutSignal(signal) => self.put_signal(*signal),
            Op::Bit => self.bit(),
            Op::Pack(sort) => self.pack(*sort),
            Op::Unary(operator) => self.unary(*operator),
            Op::Func(function) => self.call_function(*function),
            Op::Call(routine) => self.call(loaded, *routine),
            Op::Back => self.back(None),
            Op::BackWith => self.back_with(),
            Op::NoBack => not_returned(),
            Op::Raise => self.raise_number(),
            Op::Again => self.again(),
            Op::Retry => self.retry(loaded.code()),
            Op::Next => self.skip(loaded.code()),
            Op::Exit => exited(),
            Op::Wait(to) => self.wait(*to),
            Op::TestSet => self.test_and_set(),
            Op::TaskSet(len) => self.task_set(loaded.code(), *len),
            Op::Arrive(meeting) => self.arrive(*meeting),
            Op::Here => position(),
            Op::Still => self.still(),
            Op::Aim => self.aim(loaded.code()),
            Op::Point(past) => self.point(*past),
            Op::Connect(trap) => self.connect(*trap),
            Op::Order(on, single) => self.order(*on, *single),
            Op::Irq(change) => self.change_interrupt(*change),
            Op::Shape(inside, home) => self.define(loaded.code(), *inside, *home),
            Op::ZoneSet(temporary) => self.zone_set(*temporary),
            Op::ZoneTie(temporary, signal) => self.zone_tie(*temporary, *signal),
            Op::Zone(change) => self.change_zone(*change),
            Op::Say(tail) => self.tell(*tail),
            _ => unreachable!(),
        }
    }
}
