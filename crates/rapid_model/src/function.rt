/// The predefined functions of this profile (RAPID Instructions, Functions and Data types).
#[derive(Clone, Copy, Debug, PartialEq, Eq)]
pub enum Function {
    Abs,
    Trunc,
    StrLen,
    NumToStr,
    Dim,
    CJointT,
    TestDI,
    DOutput,
    TestAndSet,
}
