//! Operations that make a value from others.
#![tactic(auto, unfolding(rapid_meaning::specs::Doings::after))]

ghost use Rattle.std.specs.Prelude.{◌≡◌, true, Some, if◌then◌else◌};
ghost use Rattle.typed_trees.specs.declared.datum.Datum.TheVariants.{Plain};
ghost use Rattle.rapid_meaning.specs.Statements as statements;
ghost use Rattle.rapid_meaning.specs.Values.{opposite, with_sign};
ghost use Rattle.stack_code.specs.CodeData.{CodeData};
ghost use Rattle.stack_code.specs.Steps.{Here, does, jumps, pushes, to_next};
ghost use Rattle.task_steps.specs.Doing.{came, gone, here_of};
ghost use Rattle.task_steps.specs.Seen.{Seen};

use crate::steps::done::Done;
use crate::steps::shown::truth_of;
use crate::steps::way::Way;
use function_values::num_of;
use rapid_model::{Fate, Fault, Value};

/// A leading minus.
pub(crate) fn minus(value: &Value) -> Option<Done>
    ensures { (h : Here) → pushes h h.conf.stack Plain (with_sign true value.now) ≡ came h result }
{
    let number = num_of(value)?;
    Some(Done::value(Value::Num(number.negated())))
}

/// NOT.
pub(crate) fn not(value: &Value) -> Option<Done>
    ensures { (h : Here) → pushes h h.conf.stack Plain (opposite value.now) ≡ came h result }
{
    let truth = truth_of(value)?;
    Some(Done::value(Value::Bool(!truth)))
}

/// RAISE with a number, which is whole and from 1 to 90 (RAPID Instructions: RAISE).
pub(crate) fn raised(value: &Value) -> Option<Done>
    ensures { (h : Here) → does h h.conf.stack (statements.raised value.now) ≡ came h result }
{
    let thousandths = num_of(value)?.thousandths();
    if thousandths % 1000 == 0 && (1000..=90_000).contains(&thousandths) {
        Some(Done::Raise((thousandths / 1000) as u8))
    } else {
        Some(Done::End(Fate::Fault(Fault::RaiseRange)))
    }
}

/// Jumps if a bool is TRUE.
pub(crate) fn jumped(truth: bool, to: u32) -> Way
    ensures { (code : CodeData) (s : Seen) → (if truth then jumps (here_of code s.conf) to s.conf.stack else to_next (here_of code s.conf) s.conf.stack) ≡ gone code (Some result) s }
{
    if truth { Way::Jump(to) } else { Way::Next }
}

/// Jumps if a bool is FALSE.
pub(crate) fn gone_on(truth: bool, to: u32) -> Way
    ensures { (code : CodeData) (s : Seen) → (if truth then to_next (here_of code s.conf) s.conf.stack else jumps (here_of code s.conf) to s.conf.stack) ≡ gone code (Some result) s }
{
    if truth { Way::Next } else { Way::Jump(to) }
}

/// Goes on.
pub(crate) fn dropped() -> Option<Done>
    ensures { (h : Here) → to_next h h.conf.stack ≡ came h result }
{
    Some(Done::Next)
}
