/// What an interrupt is ordered on, by its number in the cell; a signal's value is on the stack (RAPID Instructions:
/// ISignalDI, ISignalDO, IPers). 8 bytes.
#[derive(Clone, Copy)]
pub enum OrderOn {
    Signal(u32),
    Pers(u32),
}
