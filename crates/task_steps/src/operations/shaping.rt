//! Shapes of zones (RAPID Instructions: WZLimJointDef, WZHomeJointDef).

ghost use Rattle.std.specs.Prelude.{◌≡◌, ◌≤◌, Some, if◌then◌else◌};
ghost use Rattle.std.specs.Option.{option_map};
ghost use Rattle.typed_trees.specs.declared.datum.Datum.TheVariants as datums;
ghost use Rattle.typed_trees.specs.declared.datum.Lvalue.{Lvalue};
ghost use Rattle.rapid_meaning.specs.Doings.{Raises, after};
ghost use Rattle.rapid_meaning.specs.Places.{store};
ghost use Rattle.rapid_meaning.specs.Values.{target_in};
ghost use Rattle.rapid_meaning.specs.Zones.{define, define_home, home_high, home_low, on_axes};
ghost use Rattle.stack_code.specs.Steps.{act};
ghost use Rattle.stack_code.specs.declared.op.Op.TheVariants as ops;
ghost use Rattle.task_steps.specs.Alike.{Turns, tested};
ghost use Rattle.task_steps.specs.Doing.{here_of};

use crate::steps::done::Done;
use crate::steps::shown::target_of;
use crate::task::Task;
use joint_clip::{ShapeFault, make_shape};
use machine_stacks::Held;
use rapid_limits::MOST_AXES;
use rapid_model::{Fate, Fault, Value};
use rapid_num::{Joints, Num, Shape};
use task_code::Code;

impl Task {
    /// Stores a shape, inside or outside, given by a middle and its deltas or by two bounds.
    pub(crate) fn define(&mut self, code: &Code, inside: bool, home: bool) -> Option<Done>
        ensures phase { self.new.phase ≡ self.old.phase }
        ensures room { self.new.room ≡ self.old.room }
        ensures turns { Turns code.now (act (here_of code.now self.old.conf) (ops.Shape inside home)) self.old.data' result self.new }
    {
        let second = self.pop_value()?;
        let first = self.pop_value()?;
        let place = self.pop_place()?;
        let made = made(code.axes(), inside, home, &first, &second)?;
        match made {
            Ok(shape) => self.store_at(place, &Held::of_shape(Some(shape))),
            Err(why) => Some(Done::End(Fate::Fault(why))),
        }
    }
}

/// The shape given by two targets, for an arm with `axes` axes: a middle and its deltas, or two bounds. The error says
/// why they give none.
#[tactic(auto, unfolding(rapid_meaning::specs::Doings::after))]
fn made(
    axes: u8,
    inside: bool,
    home: bool,
    first: &Value,
    second: &Value,
) -> Option<Result<Shape, Fault>>
    requires { axes ≤ MOST_AXES }
    ensures { (place : Lvalue) → after (target_in first.now) (λ x. after (target_in second.now) (λ y. if home then define_home axes place inside x y else define axes place inside x y) Raises) Raises ≡ after (tested result) (λ shape. store place (datums.Shape (Some shape))) Raises }
{
    let first = target_of(first)?;
    let second = target_of(second)?;
    Some(shape_of(axes, inside, home, &first, &second))
}

/// The shape of a middle and its deltas, or of two bounds.
fn shape_of(
    axes: u8,
    inside: bool,
    home: bool,
    first: &Joints,
    second: &Joints,
) -> Result<Shape, Fault>
    requires { axes ≤ MOST_AXES }
    ensures { (place : Lvalue) → (if home then define_home axes place inside first.now second.now else define axes place inside first.now second.now) ≡ after (tested (Some result)) (λ shape. store place (datums.Shape (Some shape))) Raises }
{
    if home {
        around(axes, inside, first, second)
    } else {
        between(axes, inside, first, second)
    }
}

/// The shape between a low and a high position.
fn between(axes: u8, inside: bool, low: &Joints, high: &Joints) -> Result<Shape, Fault>
    requires { axes ≤ MOST_AXES }
    ensures { (place : Lvalue) → define axes place inside low.now high.now ≡ after (tested (Some result)) (λ shape. store place (datums.Shape (Some shape))) Raises }
{
    match make_shape(inside, low, high, usize::from(axes)) {
        Ok(shape) => Ok(shape),
        Err(ShapeFault::ExtAxis) => Err(Fault::ExtAxis),
        Err(ShapeFault::ZoneShape) => Err(Fault::ZoneShape),
    }
}

/// The shape of a middle and its deltas.
fn around(axes: u8, inside: bool, middle: &Joints, delta: &Joints) -> Result<Shape, Fault>
    requires { axes ≤ MOST_AXES }
    ensures { (place : Lvalue) → define_home axes place inside middle.now delta.now ≡ after (tested (Some result)) (λ shape. store place (datums.Shape (Some shape))) Raises }
{
    let Some(low) = on_axes(false, &middle.axis, &delta.axis) else {
        return Err(Fault::NumRange);
    };
    let Some(high) = on_axes(true, &middle.axis, &delta.axis) else {
        return Err(Fault::NumRange);
    };
    between(axes, inside, &Joints { axis: low }, &Joints { axis: high })
}

/// The bound of each axis above its middle, or below it, if all are in range.
fn on_axes(
    above: bool,
    middles: &[Num; MOST_AXES],
    deltas: &[Num; MOST_AXES],
) -> Option<[Num; MOST_AXES]>
    ensures { result ≡ on_axes (λ m d. if above then home_high m d else home_low m d) middles.now deltas.now }
{
    let mut bounds = *middles;
    for axis in 0..MOST_AXES {
        bounds[axis] = home_bound(above, middles[axis], deltas[axis])?;
    }
    Some(bounds)
}

/// The bound of an axis above its middle, or below it.
fn home_bound(above: bool, middle: Num, delta: Num) -> Option<Num>
    ensures { result ≡ (if above then home_high middle delta else home_low middle delta) }
{
    if middle.is_absent() || delta.is_absent() {
        Num::new(9_000_000_000_000)
    } else if above {
        middle.add(delta)
    } else {
        middle.sub(delta)
    }
}
