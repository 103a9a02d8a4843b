//! Equal parts of requests and answers. A derived comparison has no contract that says which values are equal.

ghost use Rattle.std.specs.Prelude.{◌≡◌, ◌↔◌, length, IsTrue};

use rapid_model::{Fate, Fault, PartName, Path, Tail, Text, Watched, ZoneName};
use rapid_num::{Bound, Joints, Num, Shape};

/// Whether two paths are equal.
pub(crate) fn same_path(a: &Path, b: &Path) -> bool
    ensures { IsTrue result ↔ (a.now ≡ b.now) }
{
    a.index == b.index && same_part(&a.part, &b.part)
}

fn same_part(a: &PartName, b: &PartName) -> bool
    ensures { IsTrue result ↔ (a.now ≡ b.now) }
{
    match (a, b) {
        (PartName::Axis(a), PartName::Axis(b)) => a == b,
        (PartName::SpeedPart(a), PartName::SpeedPart(b)) => a == b,
        (PartName::Whole, PartName::Whole)
        | (PartName::Robax, PartName::Robax)
        | (PartName::Extax, PartName::Extax)
        | (PartName::Taskname, PartName::Taskname) => true,
        _ => false,
    }
}

/// Whether two orders watch the same.
pub(crate) fn same_watched(a: &Watched, b: &Watched) -> bool
    ensures { IsTrue result ↔ (a.now ≡ b.now) }
{
    match (a, b) {
        (
            Watched::Signal {
                signal: a,
                value: from,
            },
            Watched::Signal {
                signal: b,
                value: to,
            },
        ) => a == b && from == to,
        (Watched::Pers { pers: a }, Watched::Pers { pers: b }) => a == b,
        _ => false,
    }
}

/// Whether two tails of texts are equal.
pub(crate) fn same_tail(a: &Tail, b: &Tail) -> bool
    ensures { IsTrue result ↔ (a.now ≡ b.now) }
{
    match (a, b) {
        (Tail::None, Tail::None) => true,
        (Tail::Num(a), Tail::Num(b)) => a.thousandths() == b.thousandths(),
        (Tail::Bool(a), Tail::Bool(b)) => a == b,
        _ => false,
    }
}

/// Whether two texts have the same bytes.
pub(crate) fn same_text(a: &Text, b: &Text) -> bool
    ensures { IsTrue result ↔ (a.now ≡ b.now) }
{
    a.bytes() == b.bytes()
}

/// Whether two names of zones are equal.
pub(crate) fn same_zone(a: &ZoneName, b: &ZoneName) -> bool
    ensures { IsTrue result ↔ (a.now ≡ b.now) }
{
    match (a, b) {
        (ZoneName::Own(a), ZoneName::Own(b)) => a == b,
        (ZoneName::Cell(a), ZoneName::Cell(b)) => a == b,
        _ => false,
    }
}

/// Whether two fates are equal.
pub(crate) fn same_fate(a: &Fate, b: &Fate) -> bool
    ensures { IsTrue result ↔ (a.now ≡ b.now) }
{
    match (a, b) {
        (Fate::Done, Fate::Done)
        | (Fate::Exit, Fate::Exit)
        | (Fate::Held, Fate::Held)
        | (Fate::Cut, Fate::Cut) => true,
        (Fate::Fault(a), Fate::Fault(b)) => same_fault(a, b),
        _ => false,
    }
}

fn same_fault(a: &Fault, b: &Fault) -> bool
    ensures { IsTrue result ↔ (a.now ≡ b.now) }
{
    match (a, b) {
        (Fault::Unhandled(a), Fault::Unhandled(b)) => a == b,
        (Fault::NumRange, Fault::NumRange)
        | (Fault::IndexRange, Fault::IndexRange)
        | (Fault::DepthLimit, Fault::DepthLimit)
        | (Fault::NoReturn, Fault::NoReturn)
        | (Fault::RaiseRange, Fault::RaiseRange)
        | (Fault::SignalValue, Fault::SignalValue)
        | (Fault::TaskName, Fault::TaskName)
        | (Fault::MoveInTrap, Fault::MoveInTrap)
        | (Fault::JointRange, Fault::JointRange)
        | (Fault::Speed, Fault::Speed)
        | (Fault::ZoneStop, Fault::ZoneStop)
        | (Fault::ZoneShape, Fault::ZoneShape)
        | (Fault::ZoneFull, Fault::ZoneFull)
        | (Fault::ZoneUsed, Fault::ZoneUsed)
        | (Fault::NoZone, Fault::NoZone)
        | (Fault::ExtAxis, Fault::ExtAxis)
        | (Fault::TrapFlood, Fault::TrapFlood)
        | (Fault::TiedOutput, Fault::TiedOutput) => true,
        _ => false,
    }
}

/// Whether two positions are equal on every axis.
pub(crate) fn same_joints(a: &Joints, b: &Joints) -> bool
    ensures { IsTrue result ↔ (a.now ≡ b.now) }
{
    same_nums(&a.axis, &b.axis)
}

fn same_nums(a: &[Num], b: &[Num]) -> bool
    ensures { IsTrue result ↔ (a.now ≡ b.now) }
{
    a == b
}

/// Whether two shapes have the same side and the same bounds.
pub(crate) fn same_shape(a: &Shape, b: &Shape) -> bool
    ensures { IsTrue result ↔ (a.now ≡ b.now) }
{
    a.inside == b.inside && same_bounds(&a.bounds, &b.bounds)
}

fn same_bounds(a: &[Option<Bound>], b: &[Option<Bound>]) -> bool
    requires { length a.now ≡ length b.now }
    ensures { IsTrue result ↔ (a.now ≡ b.now) }
{
    for k in 0..a.len() {
        if !same_bound(&a[k], &b[k]) {
            return false;
        }
    }
    true
}

fn same_bound(a: &Option<Bound>, b: &Option<Bound>) -> bool
    ensures { IsTrue result ↔ (a.now ≡ b.now) }
{
    match (a, b) {
        (None, None) => true,
        (Some(a), Some(b)) => {
            a.low.thousandths() == b.low.thousandths()
                && a.high.thousandths() == b.high.thousandths()
        }
        _ => false,
    }
}
