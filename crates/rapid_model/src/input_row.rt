/// A step of the input script: the signal with this number gets the value as soon as each given part of its gate holds.
/// `when` is the number of a signal and its value; `given` is the number of a task and the minimum number of setpoints
/// given to its arm; `after` is the minimum number of counted events so far.
#[derive(Clone, Copy, Debug, PartialEq, Eq)]
pub struct InputRow {
    pub signal: u32,
    pub value: bool,
    pub when: Option<(u32, bool)>,
    pub given: Option<(u32, u32)>,
    pub after: Option<u32>,
}
