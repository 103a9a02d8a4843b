//! Meetings of tasks (RAPID Instructions: WaitSyncTask).
#![tactic(auto, unfolding(rapid_meaning::specs::Doings::after))]

ghost use Rattle.std.specs.Prelude.{◌≡◌, ◌+◌, ◌-◌, ◌<◌, bytes_eq, position};
ghost use Rattle.std.specs.Option.{option_and_then};
ghost use Rattle.typed_trees.specs.declared.datum.Datum.TheVariants.{Plain};
ghost use Rattle.rapid_meaning.specs.Data.{datum_at};
ghost use Rattle.rapid_meaning.specs.Doings.{Raises, after, or_misfit};
ghost use Rattle.rapid_meaning.specs.Meetings as meetings;
ghost use Rattle.rapid_meaning.specs.Meetings.{arrive, with_tasks};
ghost use Rattle.rapid_meaning.specs.Places.{part_in};
ghost use Rattle.rapid_meaning.specs.Values.{value_in, whole};
ghost use Rattle.stack_code.specs.CodeData.{CodeData};
ghost use Rattle.stack_code.specs.Steps as steps;
ghost use Rattle.stack_code.specs.Steps.{Here, act, as_truth, pushes, set_in};
ghost use Rattle.stack_code.specs.declared.op.Op.TheVariants as ops;
ghost use Rattle.task_steps.specs.Alike.{Turns, tested, with_stack};
ghost use Rattle.task_steps.specs.Doing.{answered, came, here_of, named};
ghost use Rattle.task_steps.specs.declared.requests.pending.Pending.TheVariants as pendings;

use crate::operands::gathering::Gathering;
use crate::operands::pushing::whole;
use crate::requests::pending::Pending;
use crate::steps::done::Done;
use crate::steps::shown::text_of;
use crate::task::Task;
use function_values::num_of;
use rapid_limits::MOST_TASKS;
use rapid_model::{Answer, Fate, Fault, NameText, Path, Request, Text, Value};
use task_code::Code;
use typed_trees::{Lvalue, Root};

impl Task {
    /// Pushes the set of the tasks named by the elements of an array of length `len`, whose place is on top.
    pub(crate) fn task_set(&mut self, code: &Code, len: u16) -> Option<Done>
        ensures rest { self.new ≡ with_stack self.new.conf.stack self.old }
        ensures turns { Turns code.now (act (here_of code.now self.old.conf) (ops.TaskSet len)) self.old.data' result self.new }
    {
        let list = self.pop_place()?;
        self.gather(code, list, len, 0, 0)
    }

    /// Adds to a set the tasks that the elements of an array name, from one element on, and pushes the set. The task's
    /// own elements are read at once, a persistent by a request.
    fn gather(&self, code: &Code, list: Lvalue, len: u16, from: u16, before: u16) -> Option<Done>
        ensures { Turns code.now (pushes (here_of code.now self.now.conf) self.now.conf.stack (λ more. Plain (whole more)) (with_tasks code.now.tasks list (len - from) (from + 1) before)) self.now.data' result self.now }
    {
        let mut set = before;
        for read in from..len {
            let place = self.element(list, read + 1)?;
            match place.root {
                Root::Pers { pers, index } => {
                    let path = Path {
                        index,
                        part: place.part,
                    };
                    let gathering = Gathering {
                        list,
                        len,
                        read,
                        set,
                    };
                    return Some(Done::Ask {
                        request: Request::ReadP { pers, path },
                        then: Pending::Gathered(gathering),
                    });
                }
                Root::Slot(_) | Root::Frame { .. } => {}
            }
            match self.own_named(code.tasks(), place, set)? {
                Ok(more) => set = more,
                Err(fault) => return Some(Done::End(Fate::Fault(fault))),
            }
        }
        Some(Done::value(whole(set)))
    }

    /// A set with the task that a place of the task's own data names.
    fn own_named(&self, names: &[NameText], place: Lvalue, set: u16) -> Option<Result<u16, Fault>>
        ensures { tested result ≡ after (after (or_misfit (option_and_then (part_in place.part) (datum_at place.root self.now.data'))) value_in Raises) (named names.now set) Raises }
    {
        match self.own_part(place)?.into_value() {
            Some(value) => joined(names, set, value),
            None => None,
        }
    }

    /// Goes on after an element of a list was read: adds its task to the set, then those of the elements after it.
    pub(crate) fn gathered(&self, code: &Code, gathering: Gathering, answer: Answer) -> Option<Done>
        ensures { Turns code.now (answered (here_of code.now self.now.conf) (pendings.Gathered gathering) answer) self.now.data' result self.now }
    {
        let Answer::Val(value) = answer else {
            return None;
        };
        let Gathering {
            list,
            len,
            read,
            set,
        } = gathering;
        match joined(code.tasks(), set, value)? {
            Ok(more) => self.gather(code, list, len, read + 1, more),
            Err(fault) => Some(Done::End(Fate::Fault(fault))),
        }
    }

    /// Arrives at a meeting, with the tasks of the set on top.
    pub(crate) fn arrive(&mut self, meeting: u32) -> Option<Done>
        ensures on { (code : CodeData) → act (here_of code self.old.conf) (ops.Arrive meeting) ≡ came (here_of code self.new.conf) result }
        ensures rest { self.new ≡ with_stack self.new.conf.stack self.old }
    {
        let set = self.pop_value()?;
        arrived_with(meeting, &set)
    }
}

/// A set with the task of a name. The error is that there is no such task.
fn joined(names: &[NameText], set: u16, name: Value) -> Option<Result<u16, Fault>>
    ensures { named names.now set name ≡ tested result }
{
    let name = text_of(name)?;
    match task_named(names, &name) {
        Some(task) if task < MOST_TASKS => Some(Ok(with_task(task, set))),
        Some(_) => None,
        None => Some(Err(Fault::TaskName)),
    }
}

/// Asks whether the tasks of a set have come to a meeting.
fn arrived_with(meeting: u32, set: &Value) -> Option<Done>
    ensures { (h : Here) → pushes h h.conf.stack as_truth (after (set_in set.now) (λ tasks. arrive meeting tasks) Raises) ≡ came h result }
{
    let tasks = set_of(set)?;
    Some(Done::Ask {
        request: Request::Arrive { meeting, tasks },
        then: Pending::Arrived,
    })
}

/// The task of a name, by its number in the script, from 0.
fn task_named(names: &[NameText], name: &Text) -> Option<usize>
    ensures { result ≡ position (bytes_eq name.now) names.now }
{
    names.iter().position(|other| name.bytes() == other.bytes())
}

/// A set of tasks as the whole part of a num.
fn set_of(value: &Value) -> Option<u16>
    ensures { set_in value.now ≡ or_misfit result }
{
    let thousandths = num_of(value)?.thousandths();
    if thousandths < 0 {
        return None;
    }
    task_set(thousandths.unsigned_abs() / 1000)
}

/// A set of tasks, if a request can name it.
fn task_set(set: u64) -> Option<u16>
    ensures { steps.task_set set ≡ or_misfit result }
{
    if set < 65_536 { Some(set as u16) } else { None }
}

/// A set with one more task, bit k for task k.
fn with_task(task: usize, set: u16) -> u16
    requires { task < MOST_TASKS }
    ensures { result ≡ meetings.with_task task set }
{
    let bit = 2u64.pow(task as u32);
    let set = u64::from(set);
    if set / bit % 2 == 1 {
        set as u16
    } else {
        (set + bit) as u16
    }
}
