ghost use Rattle.std.specs.Prelude.{◌≡◌};

use crate::fate::Fate;
use crate::path::Path;
use crate::printable::Text;
use crate::tail::Tail;
use crate::value::Value;
use crate::watched::Watched;
use rapid_num::{Joints, Shape};

/// A request of a task, or of the input script, to the cell. A request and its answer are one event, the atomic step of
/// a run. Persistents, signals, meetings and inputs are given by their numbers in the cell, from 0; interrupts and
/// zones by the numbers that the cell gave them, from 1, with 0 for none.
#[derive(Debug, PartialEq, Eq, Drop)]
pub enum Request {
    /// May the next statement start?
    Look,
    /// Reads a part of a persistent.
    ReadP {
        pers: u32,
        path: Path,
    },
    /// Writes a part of a persistent.
    WriteP {
        pers: u32,
        path: Path,
        value: Value,
    },
    /// Sets a bool of a persistent to TRUE if it is FALSE, in one step (RAPID Functions: TestAndSet).
    TestSet {
        pers: u32,
        path: Path,
    },
    /// Reads a signal.
    ReadS {
        signal: u32,
    },
    /// Sets an output.
    WriteS {
        signal: u32,
        value: bool,
    },
    /// The position of the arm.
    Position,
    /// Moves the arm to the next setpoint of a move.
    Setpoint {
        to: Joints,
    },
    /// Connects an interrupt to a trap, given by the routine's number in the task. `old` is the number in the variable.
    Connect {
        old: u8,
        trap: u32,
    },
    /// Orders an interrupt, for a single firing if `single` holds.
    Order {
        number: u8,
        on: Watched,
        single: bool,
    },
    /// Deactivates an interrupt (RAPID Instructions: ISleep).
    Sleep {
        number: u8,
    },
    /// Activates an interrupt (RAPID Instructions: IWatch).
    Watch {
        number: u8,
    },
    /// Deletes an interrupt (RAPID Instructions: IDelete).
    Delete {
        number: u8,
    },
    /// Disables all interrupts (RAPID Instructions: IDisable).
    Disable,
    /// Enables all interrupts (RAPID Instructions: IEnable).
    Enable,
    /// The trap has ended.
    Leave,
    /// Defines a zone and supervises it. `old` is the number in the variable (RAPID Instructions: WZLimSup).
    ZoneSet {
        old: u8,
        temporary: bool,
        shape: Shape,
    },
    /// Defines a zone that sets an output (RAPID Instructions: WZDOSet).
    ZoneTie {
        old: u8,
        temporary: bool,
        shape: Shape,
        signal: u32,
        value: bool,
    },
    /// Activates supervision of a zone again (RAPID Instructions: WZEnable).
    ZoneOn {
        zone: u8,
    },
    /// Deactivates supervision of a zone (RAPID Instructions: WZDisable).
    ZoneOff {
        zone: u8,
    },
    /// Frees a zone (RAPID Instructions: WZFree).
    ZoneFree {
        zone: u8,
    },
    /// Arrives at a meeting with a set of tasks, in which bit k is task k (RAPID Instructions: WaitSyncTask).
    Arrive {
        meeting: u32,
        tasks: u16,
    },
    /// Waits for a change by another actor. `seen` is the number of changes that the statement's own Look found.
    Hold {
        seen: u32,
    },
    /// Continues after a change.
    Rise,
    /// The step of the input script with this number.
    Input {
        index: u32,
    },
    /// Writes a text for the operator (RAPID Instructions: TPWrite).
    Say {
        text: Text,
        tail: Tail,
    },
    /// The task has ended.
    End {
        fate: Fate,
    },
}

impl Request {
    /// An equal request.
    pub fn copy(&self) -> Request
        ensures { result ≡ self.now }
    {
        match self {
            Request::Look => Request::Look,
            Request::ReadP { pers, path } => Request::ReadP {
                pers: *pers,
                path: *path,
            },
            Request::WriteP { pers, path, value } => Request::WriteP {
                pers: *pers,
                path: *path,
                value: value.copy(),
            },
            Request::TestSet { pers, path } => Request::TestSet {
                pers: *pers,
                path: *path,
            },
            Request::ReadS { signal } => Request::ReadS { signal: *signal },
            Request::WriteS { signal, value } => Request::WriteS {
                signal: *signal,
                value: *value,
            },
            Request::Position => Request::Position,
            Request::Setpoint { to } => Request::Setpoint { to: *to },
            Request::Connect { old, trap } => Request::Connect {
                old: *old,
                trap: *trap,
            },
            Request::Order { number, on, single } => Request::Order {
                number: *number,
                on: *on,
                single: *single,
            },
            Request::Sleep { number } => Request::Sleep { number: *number },
            Request::Watch { number } => Request::Watch { number: *number },
            Request::Delete { number } => Request::Delete { number: *number },
            Request::Disable => Request::Disable,
            Request::Enable => Request::Enable,
            Request::Leave => Request::Leave,
            Request::ZoneSet {
                old,
                temporary,
                shape,
            } => Request::ZoneSet {
                old: *old,
                temporary: *temporary,
                shape: *shape,
            },
            Request::ZoneTie {
                old,
                temporary,
                shape,
                signal,
                value,
            } => Request::ZoneTie {
                old: *old,
                temporary: *temporary,
                shape: *shape,
                signal: *signal,
                value: *value,
            },
            Request::ZoneOn { zone } => Request::ZoneOn { zone: *zone },
            Request::ZoneOff { zone } => Request::ZoneOff { zone: *zone },
            Request::ZoneFree { zone } => Request::ZoneFree { zone: *zone },
            Request::Arrive { meeting, tasks } => Request::Arrive {
                meeting: *meeting,
                tasks: *tasks,
            },
            Request::Hold { seen } => Request::Hold { seen: *seen },
            Request::Rise => Request::Rise,
            Request::Input { index } => Request::Input { index: *index },
            Request::Say { text, tail } => Request::Say {
                text: text.copy(),
                tail: *tail,
            },
            Request::End { fate } => Request::End { fate: *fate },
        }
    }
}
