/// An operation on an interrupt, or on all of them (RAPID Instructions: ISleep, IWatch, IDelete, IDisable, IEnable).
#[derive(Clone, Copy)]
pub enum IrqOp {
    Sleep,
    Watch,
    Delete,
    Disable,
    Enable,
}
