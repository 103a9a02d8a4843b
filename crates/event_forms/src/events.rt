//! Events of every form: each request with each answer that it may have, with the largest numbers.

ghost use Rattle.std.specs.Prelude.{IsTrue};
ghost use Rattle.history_pages.specs.Replies.{is_reply_to};

use crate::longest::Longest;
use rapid_model::{Answer, Event, Fate, Fault, Request, Tail, Value, Watched, ZoneName};

/// How many forms there are.
pub const FORMS: u32 = 47;

const NUMBER: u8 = 255;

const WIDE: u32 = 4_294_967_295;

/// An event of an actor, of the form with this number; of the last form for every greater number.
pub fn event(form: u32, actor: u32, longest: &Longest) -> Event
    ensures { IsTrue (is_reply_to result.request result.answer) }
{
    let (request, answer) = match form {
        0..=9 => of_data(form, longest),
        10..=17 => of_orders(form),
        18..=26 => of_interrupts(form),
        27..=33 => of_new_zones(form, longest),
        34..=39 => of_zones(form),
        _ => of_waits(form, longest),
    };
    Event {
        actor,
        request,
        answer,
    }
}

/// Looks, persistents, signals and the arm.
fn of_data(form: u32, longest: &Longest) -> (Request, Answer)
    ensures { IsTrue (is_reply_to result.0 result.1) }
{
    let (pers, path, signal) = (WIDE, longest.path, WIDE);
    let (to, value) = (longest.joints, true);
    match form {
        0 => (Request::Look, Answer::Go { seen: WIDE }),
        1 => (Request::ReadP { pers, path }, Answer::Val(longest.target())),
        2 => {
            let value = Value::Text(longest.text.copy());
            (Request::WriteP { pers, path, value }, Answer::Ok)
        }
        3 => (Request::TestSet { pers, path }, Answer::Yes(true)),
        4 => (Request::ReadS { signal }, Answer::Bit(true)),
        5 => (Request::WriteS { signal, value }, Answer::Ok),
        6 => (Request::WriteS { signal, value }, Answer::Tied),
        7 => (Request::Position, Answer::At(longest.joints)),
        8 => (Request::Setpoint { to }, Answer::Given),
        _ => (
            Request::Setpoint { to },
            Answer::Stopped(ZoneName::Cell(NUMBER)),
        ),
    }
}

/// Interrupts that come, are connected and are ordered.
fn of_orders(form: u32) -> (Request, Answer)
    ensures { IsTrue (is_reply_to result.0 result.1) }
{
    let (number, old, trap, single) = (NUMBER, NUMBER, WIDE, true);
    let on = Watched::Pers { pers: WIDE };
    match form {
        10 => (Request::Look, Answer::Trap { number, trap }),
        11 => (Request::Look, Answer::Flood),
        12 => (Request::Connect { old, trap }, Answer::Number(number)),
        13 => (Request::Connect { old, trap }, Answer::Already),
        14 => (Request::Connect { old, trap }, Answer::NoMore),
        15 => (Request::Order { number, on, single }, Answer::Ok),
        16 => (Request::Order { number, on, single }, Answer::Unknown),
        _ => (Request::Order { number, on, single }, Answer::Already),
    }
}

/// Interrupts that are put to sleep, woken, deleted, held back and left.
fn of_interrupts(form: u32) -> (Request, Answer)
    ensures { IsTrue (is_reply_to result.0 result.1) }
{
    let number = NUMBER;
    match form {
        18 => (Request::Sleep { number }, Answer::Ok),
        19 => (Request::Sleep { number }, Answer::Unknown),
        20 => (Request::Watch { number }, Answer::Ok),
        21 => (Request::Watch { number }, Answer::Unknown),
        22 => (Request::Delete { number }, Answer::Ok),
        23 => (Request::Delete { number }, Answer::Unknown),
        24 => (Request::Disable, Answer::Ok),
        25 => (Request::Enable, Answer::Ok),
        _ => (Request::Leave, Answer::Ok),
    }
}

/// Zones to be made.
fn of_new_zones(form: u32, longest: &Longest) -> (Request, Answer)
    ensures { IsTrue (is_reply_to result.0 result.1) }
{
    let set = Request::ZoneSet {
        old: NUMBER,
        temporary: true,
        shape: longest.shape,
    };
    let tie = Request::ZoneTie {
        old: NUMBER,
        temporary: false,
        shape: longest.shape,
        signal: WIDE,
        value: true,
    };
    match form {
        27 => (set, Answer::Number(NUMBER)),
        28 => (set, Answer::ZoneUsed),
        29 => (set, Answer::ZoneFull),
        30 => (tie, Answer::Number(NUMBER)),
        31 => (tie, Answer::ZoneUsed),
        32 => (tie, Answer::ZoneFull),
        _ => (tie, Answer::Tied),
    }
}

/// Zones that are enabled, disabled and freed.
fn of_zones(form: u32) -> (Request, Answer)
    ensures { IsTrue (is_reply_to result.0 result.1) }
{
    let zone = NUMBER;
    match form {
        34 => (Request::ZoneOn { zone }, Answer::Ok),
        35 => (Request::ZoneOn { zone }, Answer::NoZone),
        36 => (Request::ZoneOff { zone }, Answer::Ok),
        37 => (Request::ZoneOff { zone }, Answer::NoZone),
        38 => (Request::ZoneFree { zone }, Answer::Ok),
        _ => (Request::ZoneFree { zone }, Answer::NoZone),
    }
}

/// Meetings, waits, inputs, texts and ends.
fn of_waits(form: u32, longest: &Longest) -> (Request, Answer)
    ensures { IsTrue (is_reply_to result.0 result.1) }
{
    let (meeting, tasks) = (WIDE, 65_535);
    match form {
        40 => (Request::Arrive { meeting, tasks }, Answer::Met),
        41 => (Request::Arrive { meeting, tasks }, Answer::Apart),
        42 => (Request::Hold { seen: WIDE }, Answer::Ok),
        43 => (Request::Rise, Answer::Ok),
        44 => (Request::Input { index: WIDE }, Answer::Ok),
        45 => {
            let text = longest.text.copy();
            let tail = Tail::Num(longest.joints.axis[0]);
            (Request::Say { text, tail }, Answer::Ok)
        }
        _ => {
            let fate = Fate::Fault(Fault::Unhandled(NUMBER));
            (Request::End { fate }, Answer::Ok)
        }
    }
}
