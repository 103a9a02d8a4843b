use rapid_model::Watched;

/// The order of an interrupt: what it watches, and whether it ends at its first firing (RAPID Instructions: ISignalDI,
/// ISignalDO, IPers, option Single).
#[derive(Clone, Copy, Debug, PartialEq, Eq)]
pub struct Order {
    pub on: Watched,
    pub single: bool,
}
