/// What an ordered interrupt watches: a signal changing to a value, or a persistent changing (RAPID Instructions:
/// ISignalDI, ISignalDO, IPers). Signals and persistents are given by their numbers in the cell.
#[derive(Clone, Copy, Debug, PartialEq, Eq)]
pub enum Watched {
    Signal { signal: u32, value: bool },
    Pers { pers: u32 },
}
