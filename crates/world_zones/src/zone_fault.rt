/// Why an arm gets no zone (RAPID Instructions: WZLimSup).
#[derive(Clone, Copy, Debug, PartialEq, Eq)]
pub enum ZoneFault {
    /// The variable already names a zone of the arm.
    ZoneUsed,
    /// The arm already has ten zones.
    ZoneFull,
}
