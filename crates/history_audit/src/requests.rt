//! Equal requests and equal answers.

ghost use Rattle.std.specs.Prelude.{◌≡◌, ◌↔◌, IsTrue};

use crate::parts::{
    same_fate, same_joints, same_path, same_shape, same_tail, same_text, same_watched, same_zone,
};
use rapid_model::{Answer, Request};
use rapid_values::same_value;

/// Whether two requests are equal.
pub(crate) fn same_request(a: &Request, b: &Request) -> bool
    ensures { IsTrue result ↔ (a.now ≡ b.now) }
{
    match (a, b) {
        (Request::Look, Request::Look)
        | (Request::Position, Request::Position)
        | (Request::Disable, Request::Disable)
        | (Request::Enable, Request::Enable)
        | (Request::Leave, Request::Leave)
        | (Request::Rise, Request::Rise) => true,
        (Request::ReadP { pers: a, path: p }, Request::ReadP { pers: b, path: q }) => {
            a == b && same_path(p, q)
        }
        (
            Request::WriteP {
                pers: a,
                path: p,
                value: v,
            },
            Request::WriteP {
                pers: b,
                path: q,
                value: w,
            },
        ) => a == b && same_path(p, q) && same_value(v, w),
        (Request::TestSet { pers: a, path: p }, Request::TestSet { pers: b, path: q }) => {
            a == b && same_path(p, q)
        }
        (Request::ReadS { signal: a }, Request::ReadS { signal: b }) => a == b,
        (
            Request::WriteS {
                signal: a,
                value: v,
            },
            Request::WriteS {
                signal: b,
                value: w,
            },
        ) => a == b && v == w,
        (Request::Setpoint { to: a }, Request::Setpoint { to: b }) => same_joints(a, b),
        (Request::Connect { old: a, trap: s }, Request::Connect { old: b, trap: t }) => {
            a == b && s == t
        }
        (
            Request::Order {
                number: a,
                on: v,
                single: s,
            },
            Request::Order {
                number: b,
                on: w,
                single: t,
            },
        ) => a == b && same_watched(v, w) && s == t,
        (Request::Sleep { number: a }, Request::Sleep { number: b }) => a == b,
        (Request::Watch { number: a }, Request::Watch { number: b }) => a == b,
        (Request::Delete { number: a }, Request::Delete { number: b }) => a == b,
        (
            Request::ZoneSet {
                old: a,
                temporary: s,
                shape: v,
            },
            Request::ZoneSet {
                old: b,
                temporary: t,
                shape: w,
            },
        ) => a == b && s == t && same_shape(v, w),
        (
            Request::ZoneTie {
                old: a,
                temporary: s,
                shape: v,
                signal: m,
                value: x,
            },
            Request::ZoneTie {
                old: b,
                temporary: t,
                shape: w,
                signal: n,
                value: y,
            },
        ) => a == b && s == t && same_shape(v, w) && m == n && x == y,
        (Request::ZoneOn { zone: a }, Request::ZoneOn { zone: b }) => a == b,
        (Request::ZoneOff { zone: a }, Request::ZoneOff { zone: b }) => a == b,
        (Request::ZoneFree { zone: a }, Request::ZoneFree { zone: b }) => a == b,
        (
            Request::Arrive {
                meeting: a,
                tasks: s,
            },
            Request::Arrive {
                meeting: b,
                tasks: t,
            },
        ) => a == b && s == t,
        (Request::Hold { seen: a }, Request::Hold { seen: b }) => a == b,
        (Request::Input { index: a }, Request::Input { index: b }) => a == b,
        (Request::Say { text: a, tail: s }, Request::Say { text: b, tail: t }) => {
            same_text(a, b) && same_tail(s, t)
        }
        (Request::End { fate: a }, Request::End { fate: b }) => same_fate(a, b),
        _ => false,
    }
}

/// Whether two answers are equal.
pub(crate) fn same_answer(a: &Answer, b: &Answer) -> bool
    ensures { IsTrue result ↔ (a.now ≡ b.now) }
{
    match (a, b) {
        (Answer::Ok, Answer::Ok)
        | (Answer::Flood, Answer::Flood)
        | (Answer::Given, Answer::Given)
        | (Answer::Already, Answer::Already)
        | (Answer::Unknown, Answer::Unknown)
        | (Answer::NoMore, Answer::NoMore)
        | (Answer::ZoneUsed, Answer::ZoneUsed)
        | (Answer::ZoneFull, Answer::ZoneFull)
        | (Answer::NoZone, Answer::NoZone)
        | (Answer::Tied, Answer::Tied)
        | (Answer::Met, Answer::Met)
        | (Answer::Apart, Answer::Apart) => true,
        (Answer::Go { seen: a }, Answer::Go { seen: b }) => a == b,
        (Answer::Trap { number: a, trap: s }, Answer::Trap { number: b, trap: t }) => {
            a == b && s == t
        }
        (Answer::Val(a), Answer::Val(b)) => same_value(a, b),
        (Answer::Yes(a), Answer::Yes(b)) => a == b,
        (Answer::Bit(a), Answer::Bit(b)) => a == b,
        (Answer::At(a), Answer::At(b)) => same_joints(a, b),
        (Answer::Stopped(a), Answer::Stopped(b)) => same_zone(a, b),
        (Answer::Number(a), Answer::Number(b)) => a == b,
        _ => false,
    }
}
