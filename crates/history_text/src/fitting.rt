//! Which events fit the names.

ghost use Rattle.std.specs.Prelude.{◌≡◌};
ghost use Rattle.rapid_num.specs.Reach.{is_position};
ghost use Rattle.rapid_model.specs.Requests.{may_tell};
ghost use Rattle.rapid_model.specs.Fits.{fits_pers, fits_request};
ghost use Rattle.history_text.specs.Named.{answer_fits, axes_of, event_fits, fitting_by, has_arm, has_part, has_pers, has_signal, has_watched, is_part, pers_sort, request_fits, view_names, with_some_number};

use crate::axes::axes_of;
use crate::names::Names;
use crate::part_sorts::{part_sort, pers_sort};
use rapid_limits::MOST_AXES;
use rapid_model::{Answer, Event, Fate, PartName, Request, Value, Watched, is_value_of};
use rapid_num::Joints;
use rapid_values::value_is_full;

/// The actor exists, asks only about what the names have, and gets an answer of a form that its request has.
pub(crate) fn event_fits(names: &Names, event: &Event) -> bool
    ensures { result ≡ event_fits (view_names names.now) event.now }
{
    event.actor as usize <= names.tasks.len()
        && request_fits(names, event.actor, &event.request)
        && answer_fits(names, event.actor, &event.request, &event.answer)
}

/// What the request names exists, a value has the type of its path, and only an arm has positions, one for each of its
/// axes.
fn request_fits(names: &Names, actor: u32, request: &Request) -> bool
    ensures { result ≡ request_fits (view_names names.now) actor request.now }
{
    match request {
        Request::ReadP { pers, path } => has_part(names, *pers, path.part),
        Request::WriteP { pers, path, value } => {
            has_part(names, *pers, path.part) && fits_pers(names, *pers, path.part, value)
        }
        Request::TestSet { pers, path } => has_part(names, *pers, path.part),
        Request::ReadS { signal } => has_signal(names, *signal),
        Request::WriteS { signal, .. } => has_signal(names, *signal),
        Request::Position => has_arm(names, actor),
        Request::Setpoint { to } => { has_arm(names, actor) && is_position(names, actor, to) }
        Request::Order { on, .. } => has_watched(names, *on),
        Request::ZoneTie { signal, .. } => has_signal(names, *signal),
        Request::End { fate } => may_tell(*fate),
        _ => true,
    }
}

/// Only tasks have arms.
fn has_arm(names: &Names, actor: u32) -> bool
    ensures { result ≡ has_arm (view_names names.now) actor }
{
    axes_of(names.tasks, actor) > 0
}

/// Whether the joints are a position of the actor's arm.
fn is_position(names: &Names, actor: u32, joints: &Joints) -> bool
    ensures { result ≡ is_position (axes_of (view_names names.now) actor) joints.now }
{
    joints.is_position(usize::from(axes_of(names.tasks, actor)))
}

fn has_signal(names: &Names, signal: u32) -> bool
    ensures { result ≡ has_signal (view_names names.now) signal }
{
    (signal as usize) < names.signals.len()
}

fn has_pers(names: &Names, pers: u32) -> bool
    ensures { result ≡ has_pers (view_names names.now) pers }
{
    (pers as usize) < names.pers.len()
}

fn has_watched(names: &Names, on: Watched) -> bool
    ensures { result ≡ has_watched (view_names names.now) on }
{
    match on {
        Watched::Signal { signal, .. } => has_signal(names, signal),
        Watched::Pers { pers } => has_pers(names, pers),
    }
}

/// The persistent exists, and some value has the part.
fn has_part(names: &Names, pers: u32, part: PartName) -> bool
    ensures { result ≡ has_part (view_names names.now) pers part }
{
    has_pers(names, pers) && is_part(part)
}

fn is_part(part: PartName) -> bool
    ensures { result ≡ is_part part }
{
    match part {
        PartName::Axis(number) => (number as usize) < MOST_AXES,
        PartName::SpeedPart(number) => number < 4,
        _ => true,
    }
}

/// Whether a task may report this fate of itself.
fn may_tell(fate: Fate) -> bool
    ensures { result ≡ may_tell fate }
{
    match fate {
        Fate::Done => true,
        Fate::Exit => true,
        Fate::Fault(_) => true,
        Fate::Held => false,
        Fate::Cut => false,
    }
}

/// Whether the value has the type of this part of the persistent.
fn fits_pers(names: &Names, pers: u32, part: PartName, value: &Value) -> bool
    ensures { result ≡ fits_pers (pers_sort (view_names names.now) pers) part value.now }
{
    value_is_full(value);
    match pers_sort(names, pers) {
        Some(sort) => match part_sort(sort, part) {
            Some(inner) => is_value_of(inner, value),
            None => false,
        },
        None => false,
    }
}

/// Whether the answer is of a form that the request has.
fn answer_fits(names: &Names, actor: u32, request: &Request, answer: &Answer) -> bool
    ensures { result ≡ answer_fits (view_names names.now) actor request.now answer.now }
{
    match request {
        Request::Look => matches!(
            answer,
            Answer::Go { .. } | Answer::Trap { .. } | Answer::Flood
        ),
        Request::ReadP { pers, path } => match answer {
            Answer::Val(value) => fits_pers(names, *pers, path.part, value),
            _ => false,
        },
        Request::WriteP { .. } => matches!(answer, Answer::Ok),
        Request::TestSet { .. } => matches!(answer, Answer::Yes(_)),
        Request::ReadS { .. } => matches!(answer, Answer::Bit(_)),
        Request::WriteS { .. } => matches!(answer, Answer::Ok | Answer::Tied),
        Request::Position => match answer {
            Answer::At(place) => is_position(names, actor, place),
            _ => false,
        },
        Request::Setpoint { .. } => matches!(answer, Answer::Given | Answer::Stopped(_)),
        Request::Connect { .. } => matches!(
            answer,
            Answer::Already | Answer::NoMore | Answer::Number(_)
        ),
        Request::Order { .. } => {
            matches!(answer, Answer::Unknown | Answer::Already | Answer::Ok)
        }
        Request::Sleep { .. } => matches!(answer, Answer::Unknown | Answer::Ok),
        Request::Watch { .. } => matches!(answer, Answer::Unknown | Answer::Ok),
        Request::Delete { .. } => matches!(answer, Answer::Unknown | Answer::Ok),
        Request::Disable => matches!(answer, Answer::Ok),
        Request::Enable => matches!(answer, Answer::Ok),
        Request::Leave => matches!(answer, Answer::Ok),
        Request::ZoneSet { .. } => matches!(
            answer,
            Answer::ZoneUsed | Answer::ZoneFull | Answer::Number(_)
        ),
        Request::ZoneTie { .. } => matches!(
            answer,
            Answer::ZoneUsed | Answer::ZoneFull | Answer::Tied | Answer::Number(_)
        ),
        Request::ZoneOn { .. } => matches!(answer, Answer::NoZone | Answer::Ok),
        Request::ZoneOff { .. } => matches!(answer, Answer::NoZone | Answer::Ok),
        Request::ZoneFree { .. } => matches!(answer, Answer::NoZone | Answer::Ok),
        Request::Arrive { .. } => matches!(answer, Answer::Met | Answer::Apart),
        Request::Hold { .. } => matches!(answer, Answer::Ok),
        Request::Rise => matches!(answer, Answer::Ok),
        Request::Input { .. } => matches!(answer, Answer::Ok),
        Request::Say { .. } => matches!(answer, Answer::Ok),
        Request::End { .. } => matches!(answer, Answer::Ok),
    }
}
