/// The arm has no temporary zone with this number.
#[derive(Clone, Copy, Debug, PartialEq, Eq)]
pub struct NoZone;
