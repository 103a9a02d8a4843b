/// Why two bound positions make no shape (RAPID Instructions: WZLimJointDef).
#[derive(Clone, Copy, Debug, PartialEq, Eq)]
pub enum ShapeFault {
    /// An axis that the arm does not have has a bound.
    ExtAxis,
    /// No axis has a bound, or an axis has a low bound that is not below its high one.
    ZoneShape,
}
