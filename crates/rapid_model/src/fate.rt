/// Why a task ended before its `main` did. No ERROR handler can catch a fault (RAPID Overview, error recovery).
#[derive(Clone, Copy, Debug, PartialEq, Eq)]
pub enum Fault {
    /// A num would be out of range.
    NumRange,
    /// An index is not an integer, or is outside the array.
    IndexRange,
    /// A call, or the start of `main` or of a trap, would exceed 32 running routines or 20,000 values.
    DepthLimit,
    /// A function reached its end without RETURN.
    NoReturn,
    /// The number in a RAISE is not an integer from 1 to 90.
    RaiseRange,
    /// The value for a signal is neither 0 nor 1.
    SignalValue,
    /// An element of a task list does not name a task.
    TaskName,
    /// A move in a trap.
    MoveInTrap,
    /// A target does not give an angle for one of the arm's axes, or one that is out of reach: beyond ±720 degrees for
    /// axes 1 to 6, beyond ±100,000 for an external axis (RAPID Instructions: MoveAbsJ).
    JointRange,
    /// The speed of a move is not positive.
    Speed,
    /// A move would touch a supervised zone.
    ZoneStop,
    /// A zone bounds no axis, has a low bound that is not below the high bound, or was never defined.
    ZoneShape,
    /// The arm already has ten zones.
    ZoneFull,
    /// The zone variable already names a zone.
    ZoneUsed,
    /// The zone variable does not name a temporary zone.
    NoZone,
    /// A zone bounds an external axis that the arm does not have.
    ExtAxis,
    /// More than 1,024 interrupts were waiting.
    TrapFlood,
    /// The output is controlled by a zone.
    TiedOutput,
    /// An error with this number was not handled in the first routine of the task, or in a trap.
    Unhandled(u8),
}

/// The state of a task at the end of a run. A task reports the first three itself; the others follow from the history.
#[derive(Clone, Copy, Debug, PartialEq, Eq)]
pub enum Fate {
    /// Its `main` ended.
    Done,
    /// EXIT ended it.
    Exit,
    /// A fault ended it.
    Fault(Fault),
    /// It waits, and nothing can wake it up.
    Held,
    /// The run reached its maximum number of steps first.
    Cut,
}
