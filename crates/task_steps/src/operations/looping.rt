//! FOR (RAPID Kernel, FOR). Its variable, last value and step are three data of the frame.

ghost use Rattle.std.specs.Prelude.{◌≡◌, ℤ, IsSome, slice_get};
ghost use Rattle.rapid_meaning.specs.Doings.{Doing, Raises, after, or_misfit};
ghost use Rattle.rapid_meaning.specs.Loops.{has_passed};
ghost use Rattle.stack_code.specs.CodeData.{CodeData};
ghost use Rattle.stack_code.specs.Confs.{Conf};
ghost use Rattle.stack_code.specs.Steps.{act, counter_at, jumps, past_turn, set_counter_at, stepped};
ghost use Rattle.stack_code.specs.declared.op.Op.TheVariants as ops;
ghost use Rattle.task_steps.specs.Alike.{Alike, Goes};
ghost use Rattle.task_steps.specs.Doing.{gone, here_of};
ghost use Rattle.task_steps.specs.Own.{own_num_in};
ghost use Rattle.task_steps.specs.Seen.{Seen};

use crate::steps::way::Way;
use crate::task::Task;
use rapid_num::Num;
use stack_code::Op;
use task_code::Code;

/// Whether a FOR has passed its last value; a step of zero counts up.
fn has_passed(variable: Num, last: Num, step: Num) -> bool
    ensures { result ≡ has_passed variable last step }
{
    if step.thousandths() < 0 {
        variable.thousandths() < last.thousandths()
    } else {
        last.thousandths() < variable.thousandths()
    }
}

/// Where the Turn of a FOR jumps that counts as passed.
fn past_turn(code: &Code, to: u32) -> Option<Way>
    ensures { (s : Seen) → past_turn (here_of code.now s.conf) (slice_get code.now.ops to) ≡ gone code.now result s }
{
    match code.ops().get(to as usize) {
        Some(Op::Turn(_, behind)) => Some(Way::Jump(*behind)),
        _ => None,
    }
}

impl Task {
    /// One of the data of a FOR, if it is there and a num.
    fn counter(&self, at: usize) -> Option<Num>
        ensures reads { (code : CodeData) (next : ℤ → Doing Conf) → Alike code (after (counter_at at) next Raises) self.now.data' (after (or_misfit result) next Raises) self.now.data' }
        ensures num { result ≡ own_num_in at self.now.data' }
    {
        self.frames.own_num(at)
    }

    /// Tests whether the FOR whose variable is there has passed its last value, and then jumps.
    pub(crate) fn turn(&self, at: u32, to: u32) -> Option<Way>
        ensures { (code : CodeData) → Goes code (act (here_of code self.now.conf) (ops.Turn at to)) self.now.data' result self.now }
    {
        let at = at as usize;
        let variable = self.counter(at)?;
        let last = self.counter(at + 1)?;
        let step = self.counter(at + 2)?;
        if has_passed(variable, last, step) {
            Some(Way::Jump(to))
        } else {
            Some(Way::Next)
        }
    }

    /// Advances a FOR by its step. Past the range of num its Turn counts as passed.
    pub(crate) fn step_on(&mut self, code: &Code, at: u32, to: u32) -> Option<Way>
        ensures phase { self.new.phase ≡ self.old.phase }
        ensures room { self.new.room ≡ self.old.room }
        ensures conf { self.new.conf ≡ self.old.conf }
        ensures turns { Goes code.now (act (here_of code.now self.old.conf) (ops.Step at to)) self.old.data' result self.new }
    {
        let variable = self.counter(at as usize)?;
        let step = self.counter(at as usize + 2)?;
        self.counted(code, at, to, variable.add(step))
    }

    /// Advances the variable of a FOR to a num that is in range, or takes its Turn as passed.
    fn counted(&mut self, code: &Code, at: u32, to: u32, next: Option<Num>) -> Option<Way>
        requires { IsSome (own_num_in at self.old.data') }
        ensures phase { self.new.phase ≡ self.old.phase }
        ensures room { self.new.room ≡ self.old.room }
        ensures conf { self.new.conf ≡ self.old.conf }
        ensures turns { Goes code.now (stepped (here_of code.now self.old.conf) at to next) self.old.data' result self.new }
    {
        match next {
            Some(next) => self.set_counter(at, to, next),
            None => past_turn(code, to),
        }
    }

    /// Sets the variable of a FOR, which is a num, and jumps.
    fn set_counter(&mut self, at: u32, to: u32, next: Num) -> Option<Way>
        requires { IsSome (own_num_in at self.old.data') }
        ensures phase { self.new.phase ≡ self.old.phase }
        ensures room { self.new.room ≡ self.old.room }
        ensures conf { self.new.conf ≡ self.old.conf }
        ensures turns { (code : CodeData) → Goes code (after (set_counter_at at next) (λ _. jumps (here_of code self.old.conf) to self.old.conf.stack) Raises) self.old.data' result self.new }
    {
        self.frames.put_own_num(at as usize, next);
        Some(Way::Jump(to))
    }
}
