use crate::printable::NameText;

/// A signal of the cell: its name, whether it is an output (kind "do") or an input (kind "di"), and its first value,
/// which is 1 if `start` holds (RAPID Instructions, Functions and Data types: signaldi, signaldo).
#[derive(Debug, Drop)]
pub struct SignalRow {
    pub name: NameText,
    pub output: bool,
    pub start: bool,
}
