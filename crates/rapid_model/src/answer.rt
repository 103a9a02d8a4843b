ghost use Rattle.std.specs.Prelude.{◌≡◌};

use crate::value::Value;
use crate::zone_name::ZoneName;
use rapid_num::Joints;

/// An answer of the cell.
#[derive(Debug, PartialEq, Eq, Drop)]
pub enum Answer {
    /// Done. There is nothing to return.
    Ok,
    /// The statement may start. `seen` is the number of changes by other actors so far.
    Go { seen: u32 },
    /// The interrupt with this number is due: its trap, given by the routine's number in the task, runs first.
    Trap { number: u8, trap: u32 },
    /// More interrupts were waiting than the queue can hold.
    Flood,
    /// The value at the path.
    Val(Value),
    /// Whether the bool was FALSE and is now TRUE.
    Yes(bool),
    /// The value of the signal.
    Bit(bool),
    /// The arm's position.
    At(Joints),
    /// The setpoint is now the arm's position.
    Given,
    /// The move to the setpoint would touch this zone. The arm does not move.
    Stopped(ZoneName),
    /// The number that the interrupt or the zone was given.
    Number(u8),
    /// The interrupt is already connected, or already ordered.
    Already,
    /// No interrupt with this number is connected.
    Unknown,
    /// The task already has 64 interrupts.
    NoMore,
    /// The zone variable already names a zone of the arm.
    ZoneUsed,
    /// The arm already has ten zones.
    ZoneFull,
    /// The arm has no temporary zone with this number.
    NoZone,
    /// The output belongs to a zone that has not been freed.
    Tied,
    /// All tasks of the meeting have arrived.
    Met,
    /// Not all tasks of the meeting have arrived.
    Apart,
}

impl Answer {
    /// An equal answer.
    pub fn copy(&self) -> Answer
        ensures { result ≡ self.now }
    {
        match self {
            Answer::Ok => Answer::Ok,
            Answer::Go { seen } => Answer::Go { seen: *seen },
            Answer::Trap { number, trap } => Answer::Trap {
                number: *number,
                trap: *trap,
            },
            Answer::Flood => Answer::Flood,
            Answer::Val(value) => Answer::Val(value.copy()),
            Answer::Yes(met) => Answer::Yes(*met),
            Answer::Bit(bit) => Answer::Bit(*bit),
            Answer::At(position) => Answer::At(*position),
            Answer::Given => Answer::Given,
            Answer::Stopped(zone) => Answer::Stopped(*zone),
            Answer::Number(number) => Answer::Number(*number),
            Answer::Already => Answer::Already,
            Answer::Unknown => Answer::Unknown,
            Answer::NoMore => Answer::NoMore,
            Answer::ZoneUsed => Answer::ZoneUsed,
            Answer::ZoneFull => Answer::ZoneFull,
            Answer::NoZone => Answer::NoZone,
            Answer::Tied => Answer::Tied,
            Answer::Met => Answer::Met,
            Answer::Apart => Answer::Apart,
        }
    }
}
