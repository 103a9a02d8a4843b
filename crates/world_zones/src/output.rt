/// The signal that an arm's zone sets, by number, and its value while the arm's position lies in the shape (RAPID
/// Instructions: WZDOSet).
#[derive(Clone, Copy, Debug, PartialEq, Eq)]
pub struct Output {
    pub signal: u32,
    pub value: bool,
}
