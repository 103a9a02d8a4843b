/// A zone that stopped a move: one of the task's own, numbered from 1, or one of the cell's, numbered from 0 in script
/// order.
#[derive(Clone, Copy, Debug, PartialEq, Eq)]
pub enum ZoneName {
    Own(u8),
    Cell(u8),
}
