//! The ranges that the types of an event's parts keep.

ghost use Rattle.std.specs.Prelude.{◌≡◌, length};
ghost use Rattle.std.specs.List.{AllByRecursion};
ghost use Rattle.history_text.specs.InRange.{AreNums, IsAnswer, IsBound, IsEvent, IsFate, IsFault, IsPartName, IsPath, IsRequest, IsShape, IsTail, IsText, IsU8, IsU16, IsU32, IsValue, IsWatched, IsZoneName};
ghost use Rattle.rapid_num.specs.Range.{IsNum};

use rapid_limits::MOST_AXES;
use rapid_model::{
    Answer, Event, Fate, Fault, PartName, Path, Request, Tail, Text, Value, Watched, ZoneName,
};
use rapid_num::{Bound, Num, Shape};

/// Each number of an event has as many bits as its type says, nums are in range, texts are short and printable, and
/// lists have the length that the type says.
pub(crate) fn event_is_in_range(event: &Event)
    ensures { IsEvent event.now }
{
    number_is_u32(event.actor);
    request_is_in_range(&event.request);
    answer_is_in_range(&event.answer);
}

fn request_is_in_range(request: &Request)
    ensures { IsRequest request.now }
{
    match request {
        Request::ReadP { pers, path } => {
            number_is_u32(*pers);
            path_is_in_range(path);
        }
        Request::WriteP { pers, path, value } => {
            number_is_u32(*pers);
            path_is_in_range(path);
            value_is_in_range(value);
        }
        Request::TestSet { pers, path } => {
            number_is_u32(*pers);
            path_is_in_range(path);
        }
        Request::ReadS { signal } => number_is_u32(*signal),
        Request::WriteS { signal, .. } => number_is_u32(*signal),
        Request::Setpoint { to } => nums_are_in_range(&to.axis),
        Request::Connect { old, trap } => {
            number_is_u8(*old);
            number_is_u32(*trap);
        }
        Request::Order { number, on, .. } => {
            number_is_u8(*number);
            watched_is_in_range(*on);
        }
        Request::Sleep { number } => number_is_u8(*number),
        Request::Watch { number } => number_is_u8(*number),
        Request::Delete { number } => number_is_u8(*number),
        Request::ZoneSet { old, shape, .. } => {
            number_is_u8(*old);
            shape_is_in_range(shape);
        }
        Request::ZoneTie {
            old,
            shape,
            signal,
            ..
        } => {
            number_is_u8(*old);
            shape_is_in_range(shape);
            number_is_u32(*signal);
        }
        Request::ZoneOn { zone } => number_is_u8(*zone),
        Request::ZoneOff { zone } => number_is_u8(*zone),
        Request::ZoneFree { zone } => number_is_u8(*zone),
        Request::Arrive { meeting, tasks } => {
            number_is_u32(*meeting);
            number_is_u16(*tasks);
        }
        Request::Hold { seen } => number_is_u32(*seen),
        Request::Input { index } => number_is_u32(*index),
        Request::Say { text, tail } => {
            text_is_in_range(text);
            tail_is_in_range(*tail);
        }
        Request::End { fate } => fate_is_in_range(*fate),
        Request::Look => {}
        Request::Position => {}
        Request::Disable => {}
        Request::Enable => {}
        Request::Leave => {}
        Request::Rise => {}
    }
}

fn answer_is_in_range(answer: &Answer)
    ensures { IsAnswer answer.now }
{
    match answer {
        Answer::Go { seen } => number_is_u32(*seen),
        Answer::Trap { number, trap } => {
            number_is_u8(*number);
            number_is_u32(*trap);
        }
        Answer::Val(value) => value_is_in_range(value),
        Answer::At(place) => nums_are_in_range(&place.axis),
        Answer::Stopped(zone) => zone_name_is_in_range(*zone),
        Answer::Number(number) => number_is_u8(*number),
        Answer::Ok => {}
        Answer::Flood => {}
        Answer::Yes(_) => {}
        Answer::Bit(_) => {}
        Answer::Given => {}
        Answer::Already => {}
        Answer::Unknown => {}
        Answer::NoMore => {}
        Answer::ZoneUsed => {}
        Answer::ZoneFull => {}
        Answer::NoZone => {}
        Answer::Tied => {}
        Answer::Met => {}
        Answer::Apart => {}
    }
}

fn number_is_u8(number: u8)
    ensures { IsU8 number }
{}

fn number_is_u16(number: u16)
    ensures { IsU16 number }
{}

fn number_is_u32(number: u32)
    ensures { IsU32 number }
{}

fn num_is_in_range(number: Num)
    ensures { IsNum number }
{
    let _thousandths = number.thousandths();
}

/// An array has as many nums as its type says, each in range.
fn nums_are_in_range<const N: usize>(nums: &[Num; N])
    ensures { AreNums N nums.now }
{
    for number in nums {
        num_is_in_range(*number);
    }
}

fn text_is_in_range(text: &Text)
    ensures { IsText text.now }
{
    let _bytes = text.bytes();
}

fn value_is_in_range(value: &Value)
    ensures { IsValue value.now }
{
    match value {
        Value::Num(number) => num_is_in_range(*number),
        Value::Bool(_) => {}
        Value::Text(text) => text_is_in_range(text),
        Value::Rob(axes) => nums_are_in_range(axes),
        Value::Ext(axes) => nums_are_in_range(axes),
        Value::Target(joints) => nums_are_in_range(&joints.axis),
        Value::Speed(nums) => nums_are_in_range(nums),
    }
}

fn path_is_in_range(path: &Path)
    ensures { IsPath path.now }
{
    number_is_u16(path.index);
    part_is_in_range(path.part);
}

fn part_is_in_range(part: PartName)
    ensures { IsPartName part }
{
    match part {
        PartName::Axis(number) => number_is_u8(number),
        PartName::SpeedPart(number) => number_is_u8(number),
        PartName::Whole => {}
        PartName::Robax => {}
        PartName::Extax => {}
        PartName::Taskname => {}
    }
}

fn shape_is_in_range(shape: &Shape)
    ensures { IsShape shape.now }
{
    bounds_are_in_range(&shape.bounds);
}

fn bounds_are_in_range(bounds: &[Option<Bound>; MOST_AXES])
    ensures count { length bounds.now ≡ MOST_AXES }
    ensures range { AllByRecursion IsBound bounds.now }
{
    for bound in bounds {
        bound_is_in_range(bound);
    }
}

fn bound_is_in_range(bound: &Option<Bound>)
    ensures { IsBound bound.now }
{
    if let Some(bound) = bound {
        num_is_in_range(bound.low);
        num_is_in_range(bound.high);
    }
}

fn watched_is_in_range(on: Watched)
    ensures { IsWatched on }
{
    match on {
        Watched::Signal { signal, .. } => number_is_u32(signal),
        Watched::Pers { pers } => number_is_u32(pers),
    }
}

fn tail_is_in_range(tail: Tail)
    ensures { IsTail tail }
{
    if let Tail::Num(number) = tail {
        num_is_in_range(number);
    }
}

fn zone_name_is_in_range(zone: ZoneName)
    ensures { IsZoneName zone }
{
    match zone {
        ZoneName::Own(number) => number_is_u8(number),
        ZoneName::Cell(number) => number_is_u8(number),
    }
}

/// The number of an error that was not handled has 8 bits.
pub(crate) fn fate_is_in_range(fate: Fate)
    ensures { IsFate fate }
{
    if let Fate::Fault(fault) = fate {
        fault_is_in_range(fault);
    }
}

fn fault_is_in_range(fault: Fault)
    ensures { IsFault fault }
{
    if let Fault::Unhandled(number) = fault {
        number_is_u8(number);
    }
}
