use rapid_model::Fate;

/// How a task goes on once an operation's other work is done. At most 8 bytes.
#[derive(Clone, Copy)]
pub(crate) enum Way {
    /// Goes on to the next operation.
    Next,
    /// Goes on at another place.
    Jump(u32),
    /// Goes on from where it is now, or with the answer to what it asks.
    Stay,
    /// Raises an error of this number in its statement.
    Raise(u8),
    /// Raises an error of this number out of the running routine.
    Escape(u8),
    /// Ends the task.
    End(Fate),
}
