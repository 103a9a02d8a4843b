//! What operations that do not touch data do with their answers.
#![tactic(auto, unfolding(rapid_meaning::specs::Doings::after))]

ghost use Rattle.std.specs.Prelude.{◌≡◌};
ghost use Rattle.typed_trees.specs.declared.datum.Datum.TheVariants.{Plain};
ghost use Rattle.rapid_meaning.specs.Doings.{when_ok};
ghost use Rattle.rapid_meaning.specs.Functions.{when_at, when_bit};
ghost use Rattle.rapid_meaning.specs.Interrupts.{when_known, when_ordered};
ghost use Rattle.rapid_meaning.specs.Meetings.{when_arrived};
ghost use Rattle.rapid_meaning.specs.Places.{when_read, when_tested};
ghost use Rattle.rapid_meaning.specs.Signals.{when_written};
ghost use Rattle.rapid_meaning.specs.Values.{of_bit};
ghost use Rattle.rapid_meaning.specs.Zones.{when_zoned};
ghost use Rattle.stack_code.specs.Steps.{Here, as_truth, does, pushes};
ghost use Rattle.task_steps.specs.Doing.{answered, came};
ghost use Rattle.task_steps.specs.declared.requests.pending.Pending.TheVariants as pendings;

use crate::requests::pending::Pending;
use crate::steps::done::Done;
use rapid_model::{Answer, ERR_ALRDYCNT, ERR_UNKINO, Fate, Fault, Request, Value};
use rapid_num::Num;

/// A value was read.
pub(crate) fn read(answer: Answer) -> Option<Done>
    ensures { (h : Here) → pushes h h.conf.stack (λ x. x) (when_read answer) ≡ came h result }
{
    match answer {
        Answer::Val(value) => Some(Done::value(value)),
        _ => None,
    }
}

/// It was confirmed.
pub(crate) fn confirmed(answer: Answer) -> Option<Done>
    ensures { (h : Here) → does h h.conf.stack (when_ok answer) ≡ came h result }
{
    match answer {
        Answer::Ok => Some(Done::Next),
        _ => None,
    }
}

/// A bool was FALSE, or not.
pub(crate) fn tested(answer: Answer) -> Option<Done>
    ensures { (h : Here) → pushes h h.conf.stack as_truth (when_tested answer) ≡ came h result }
{
    match answer {
        Answer::Yes(met) => Some(Done::value(Value::Bool(met))),
        _ => None,
    }
}

/// A signal was read.
pub(crate) fn sensed(answer: Answer) -> Option<Done>
    ensures { (h : Here) → pushes h h.conf.stack (λ bit. Plain (of_bit bit)) (when_bit answer) ≡ came h result }
{
    match answer {
        Answer::Bit(bit) => Some(Done::value(of_bit(bit))),
        _ => None,
    }
}

/// 1 or 0.
fn of_bit(bit: bool) -> Value
    ensures { result ≡ of_bit bit }
{
    let number = if bit { Num::new(1000) } else { Num::new(0) };
    match number {
        Some(number) => Value::Num(number),
        None => unreachable!(),
    }
}

/// A signal was written, or is tied to a zone.
pub(crate) fn written(answer: Answer) -> Option<Done>
    ensures { (h : Here) → does h h.conf.stack (when_written answer) ≡ came h result }
{
    match answer {
        Answer::Ok => Some(Done::Next),
        Answer::Tied => Some(Done::End(Fate::Fault(Fault::TiedOutput))),
        _ => None,
    }
}

/// The tasks of a meeting have come, or not yet.
pub(crate) fn arrived(answer: Answer) -> Option<Done>
    ensures { (h : Here) → pushes h h.conf.stack as_truth (when_arrived answer) ≡ came h result }
{
    match answer {
        Answer::Met => Some(Done::value(Value::Bool(true))),
        Answer::Apart => Some(Done::value(Value::Bool(false))),
        _ => None,
    }
}

/// The arm's position was read.
pub(crate) fn located(answer: Answer) -> Option<Done>
    ensures { (h : Here) → pushes h h.conf.stack Plain (when_at answer) ≡ came h result }
{
    match answer {
        Answer::At(position) => Some(Done::value(Value::Target(position))),
        _ => None,
    }
}

/// An order was given, or refused (ERR_UNKINO, ERR_ALRDYCNT).
pub(crate) fn ordered(answer: Answer) -> Option<Done>
    ensures { (h : Here) → does h h.conf.stack (when_ordered answer) ≡ came h result }
{
    match answer {
        Answer::Ok => Some(Done::Next),
        Answer::Unknown => Some(Done::Raise(ERR_UNKINO)),
        Answer::Already => Some(Done::Raise(ERR_ALRDYCNT)),
        _ => None,
    }
}

/// An interrupt is known, or not (ERR_UNKINO).
pub(crate) fn known(answer: Answer) -> Option<Done>
    ensures { (h : Here) → does h h.conf.stack (when_known answer) ≡ came h result }
{
    match answer {
        Answer::Ok => Some(Done::Next),
        Answer::Unknown => Some(Done::Raise(ERR_UNKINO)),
        _ => None,
    }
}

/// A zone is there, or not.
pub(crate) fn zoned(answer: Answer) -> Option<Done>
    ensures { (h : Here) → does h h.conf.stack (when_zoned answer) ≡ came h result }
{
    match answer {
        Answer::Ok => Some(Done::Next),
        Answer::NoZone => Some(Done::End(Fate::Fault(Fault::NoZone))),
        _ => None,
    }
}

/// A wait was held: it asks to resume.
pub(crate) fn held(to: u32, answer: Answer) -> Option<Done>
    ensures { (h : Here) → answered h (pendings.Held to) answer ≡ came h result }
{
    match answer {
        Answer::Ok => Some(Done::Ask {
            request: Request::Rise,
            then: Pending::Risen(to),
        }),
        _ => None,
    }
}

/// A wait has resumed: its condition is tested again.
pub(crate) fn risen(to: u32, answer: Answer) -> Option<Done>
    ensures { (h : Here) → answered h (pendings.Risen to) answer ≡ came h result }
{
    match answer {
        Answer::Ok => Some(Done::Jump(to)),
        _ => None,
    }
}
