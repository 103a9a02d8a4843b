/// Why an arm gets no zone that sets an output (RAPID Instructions: WZDOSet).
#[derive(Clone, Copy, Debug, PartialEq, Eq)]
pub enum TieFault {
    /// The variable already names a zone of the arm.
    ZoneUsed,
    /// The arm already has ten zones.
    ZoneFull,
    /// A zone of some arm already sets the output.
    Tied,
}
