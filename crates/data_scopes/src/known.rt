use rapid_model::{NameText, SignalRow};

/// What is known around a task's modules: the names of all tasks in script order, the signals, and how many axes the
/// task's arm has: 6 to 12, or 0 if it has no arm.
#[derive(Clone, Copy, Debug)]
pub struct Known<'a> {
    pub tasks: &'a [NameText],
    pub signals: &'a [SignalRow],
    pub axes: u8,
}
