//! Operations that ask requests, with their operands.
#![tactic(auto, unfolding(rapid_meaning::specs::Doings::after))]

ghost use Rattle.std.specs.Prelude.{◌≡◌, ◌≤◌, ◌∷◌, IsTrue, Some};
ghost use Rattle.rapid_num.specs.Reach.{is_reachable};
ghost use Rattle.rapid_model.specs.declared.fate.Fate.TheVariants as fates;
ghost use Rattle.rapid_model.specs.declared.request.Request.TheVariants as asked;
ghost use Rattle.rapid_model.specs.declared.tail.Tail.TheVariants as tails;
ghost use Rattle.rapid_model.specs.declared.watched.Watched.TheVariants as watches;
ghost use Rattle.typed_trees.specs.declared.datum.Datum.TheVariants.{Plain, Mark};
ghost use Rattle.typed_trees.specs.declared.datum.Lvalue.{Lvalue};
ghost use Rattle.rapid_meaning.specs.Doings.{Asks, Raises, after, tells};
ghost use Rattle.rapid_meaning.specs.Functions.{read_signal, when_at};
ghost use Rattle.rapid_meaning.specs.Interrupts.{asks_of_number, connect, order};
ghost use Rattle.rapid_meaning.specs.Moves.{aim, cap_of, when_located};
ghost use Rattle.rapid_meaning.specs.Places.{store};
ghost use Rattle.rapid_meaning.specs.Signals.{write_signal};
ghost use Rattle.rapid_meaning.specs.Values.{bit_in, num_in, of_bit, target_in, text_in, tool_speed_in, truth_in};
ghost use Rattle.rapid_meaning.specs.Zones.{asks_of_zone, defined, supervise, tie};
ghost use Rattle.stack_code.specs.Steps.{Here, does, fails, pushes, sets_out};
ghost use Rattle.task_steps.specs.Doing.{came};
ghost use Rattle.task_steps.specs.declared.steps.done.Done.TheVariants as dones;

use crate::requests::departure::Departure;
use crate::requests::pending::Pending;
use crate::steps::done::Done;
use crate::steps::shown::{bit_of, target_of, text_of, tool_speed_of, truth_of};
use function_values::num_of;
use rapid_limits::MOST_AXES;
use rapid_model::{Fate, Fault, Request, Tail, Value, Watched};
use rapid_num::{Joints, Num, Shape};
use typed_trees::Lvalue;

fn ask(request: Request, then: Pending) -> Option<Done>
    ensures { result ≡ Some (dones.Ask request then) }
{
    Some(Done::Ask { request, then })
}

fn end(why: Fault) -> Option<Done>
    ensures { result ≡ Some (dones.End (fates.Fault why)) }
{
    Some(Done::End(Fate::Fault(why)))
}

/// Reads a signal.
pub(crate) fn signal_read(signal: u32) -> Option<Done>
    ensures { (h : Here) → pushes h h.conf.stack (λ bit. Plain (of_bit bit)) (read_signal signal) ≡ came h result }
{
    ask(Request::ReadS { signal }, Pending::Sensed)
}

/// Writes a signal.
pub(crate) fn signal_written(signal: u32, value: &Value) -> Option<Done>
    ensures { (h : Here) → does h h.conf.stack (after (bit_in value.now) (λ bit. write_signal signal bit) Raises) ≡ came h result }
{
    match bit_of(value)? {
        Ok(bit) => ask(Request::WriteS { signal, value: bit }, Pending::Written),
        Err(why) => end(why),
    }
}

/// Tests that a num is a signal's value; the num stays.
pub(crate) fn bit_kept(value: Value) -> Option<Done>
    ensures { (h : Here) → does (record h { conf = record h.conf { stack = Plain value ∷ h.conf.stack } }) (Plain value ∷ h.conf.stack) (bit_in value) ≡ came h result }
{
    match bit_of(&value)? {
        Ok(_) => Some(Done::value(value)),
        Err(why) => end(why),
    }
}

/// Asks for the arm's position.
pub(crate) fn position() -> Option<Done>
    ensures { (h : Here) → pushes h h.conf.stack Plain (Asks asked.Position when_at) ≡ came h result }
{
    ask(Request::Position, Pending::Located)
}

/// Begins a move of an arm with `axes` axes to a target at a speed.
pub(crate) fn aimed(target: &Value, speed: &Value, axes: u8) -> Option<Done>
    requires { axes ≤ MOST_AXES }
    ensures { (h : Here) → h.code.axes ≡ axes → after (after (target_in target.now) (λ joints. after (tool_speed_in speed.now) (λ n. aim axes joints n) Raises) Raises) (sets_out h h.conf.stack) (fails h) ≡ came h result }
{
    let target = target_of(target)?;
    let speed = tool_speed_of(speed)?;
    if !target.is_reachable(usize::from(axes)) {
        return end(Fault::JointRange);
    }
    if speed.thousandths() <= 0 {
        return end(Fault::Speed);
    }
    departing(axes, target, speed)
}

/// The move of an arm with `axes` axes to a target that it can reach.
fn departing(axes: u8, target: Joints, speed: Num) -> Option<Done>
    requires { IsTrue (is_reachable axes target) }
    ensures { (h : Here) → h.code.axes ≡ axes → Asks asked.Position (λ a. after (when_located axes target (cap_of speed) a) (sets_out h h.conf.stack) (fails h)) ≡ came h result }
{
    let departure = Departure {
        axes,
        target,
        speed,
    };
    ask(Request::Position, Pending::Departed(departure))
}

/// Connects an interrupt to a trap; the old number is that of its variable, at this place.
pub(crate) fn connected(place: Lvalue, old: u8, trap: u32) -> Option<Done>
    ensures { (h : Here) → does h h.conf.stack (connect place old trap) ≡ came h result }
{
    ask(Request::Connect { old, trap }, Pending::Connected(place))
}

/// Orders an interrupt on a signal's value.
pub(crate) fn ordered_on_signal(
    number: u8,
    signal: u32,
    value: &Value,
    single: bool,
) -> Option<Done>
    ensures { (h : Here) → does h h.conf.stack (after (bit_in value.now) (λ bit. order number (watches.Signal signal bit) single) Raises) ≡ came h result }
{
    match bit_of(value)? {
        Ok(bit) => {
            let on = Watched::Signal { signal, value: bit };
            ask(Request::Order { number, on, single }, Pending::Ordered)
        }
        Err(why) => end(why),
    }
}

/// Orders an interrupt on a persistent.
pub(crate) fn ordered_on_pers(number: u8, pers: u32, single: bool) -> Option<Done>
    ensures { (h : Here) → does h h.conf.stack (order number (watches.Pers pers) single) ≡ came h result }
{
    let on = Watched::Pers { pers };
    ask(Request::Order { number, on, single }, Pending::Ordered)
}

/// Asks of an interrupt.
pub(crate) fn known(request: Request) -> Option<Done>
    ensures { (h : Here) → does h h.conf.stack (asks_of_number request) ≡ came h result }
{
    ask(request, Pending::Known)
}

/// Writes to the operator.
pub(crate) fn confirmed(request: Request) -> Option<Done>
    ensures { (h : Here) → does h h.conf.stack (tells request) ≡ came h result }
{
    ask(request, Pending::Confirmed)
}

/// Asks of a zone.
pub(crate) fn zoned(request: Request) -> Option<Done>
    ensures { (h : Here) → does h h.conf.stack (asks_of_zone request) ≡ came h result }
{
    ask(request, Pending::Zoned)
}

/// Frees a zone, whose variable is at this place.
pub(crate) fn freed(place: Lvalue, zone: u8) -> Option<Done>
    ensures { (h : Here) → does h h.conf.stack (after (asks_of_zone (asked.ZoneFree zone)) (λ _. store place (Mark 0)) Raises) ≡ came h result }
{
    ask(Request::ZoneFree { zone }, Pending::Freed(place))
}

/// Supervises a shape that was defined; the old number is that of the zone's variable, at this place.
pub(crate) fn supervised(
    place: Lvalue,
    old: u8,
    temporary: bool,
    shape: Option<Shape>,
) -> Option<Done>
    ensures { (h : Here) → does h h.conf.stack (after (defined shape) (λ it. supervise place old temporary it) Raises) ≡ came h result }
{
    match shape {
        Some(shape) => ask(
            Request::ZoneSet {
                old,
                temporary,
                shape,
            },
            Pending::Supervised(place),
        ),
        None => end(Fault::ZoneShape),
    }
}

/// Ties a signal to a shape that was defined: to this value inside it. The old number is that of the zone's variable, at
/// this place.
pub(crate) fn tied(
    place: Lvalue,
    old: u8,
    temporary: bool,
    shape: Option<Shape>,
    signal: u32,
    value: &Value,
) -> Option<Done>
    ensures { (h : Here) → does h h.conf.stack (after (bit_in value.now) (λ bit. tie place old temporary shape signal bit) Raises) ≡ came h result }
{
    match bit_of(value)? {
        Ok(value) => tied_to(place, old, temporary, shape, signal, value),
        Err(why) => end(why),
    }
}

fn tied_to(
    place: Lvalue,
    old: u8,
    temporary: bool,
    shape: Option<Shape>,
    signal: u32,
    value: bool,
) -> Option<Done>
    ensures { (h : Here) → does h h.conf.stack (tie place old temporary shape signal value) ≡ came h result }
{
    match shape {
        Some(shape) => ask(
            Request::ZoneTie {
                old,
                temporary,
                shape,
                signal,
                value,
            },
            Pending::Supervised(place),
        ),
        None => end(Fault::ZoneShape),
    }
}

/// Writes a text to the operator.
pub(crate) fn said(text: Value) -> Option<Done>
    ensures { (h : Here) → does h h.conf.stack (after (text_in text) (λ it. tells (asked.Say it tails.None)) Raises) ≡ came h result }
{
    let text = text_of(text)?;
    confirmed(Request::Say {
        text,
        tail: Tail::None,
    })
}

/// Writes a text followed by a num to the operator.
pub(crate) fn said_num(text: Value, number: &Value) -> Option<Done>
    ensures { (h : Here) → does h h.conf.stack (after (text_in text) (λ it. after (num_in number.now) (λ n. tells (asked.Say it (tails.Num n))) Raises) Raises) ≡ came h result }
{
    let text = text_of(text)?;
    let tail = Tail::Num(num_of(number)?);
    confirmed(Request::Say { text, tail })
}

/// Writes a text followed by a bool to the operator.
pub(crate) fn said_truth(text: Value, truth: &Value) -> Option<Done>
    ensures { (h : Here) → does h h.conf.stack (after (text_in text) (λ it. after (truth_in truth.now) (λ b. tells (asked.Say it (tails.Bool b))) Raises) Raises) ≡ came h result }
{
    let text = text_of(text)?;
    let tail = Tail::Bool(truth_of(truth)?);
    confirmed(Request::Say { text, tail })
}
