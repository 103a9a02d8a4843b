/// What is printed of a run, before the fates of its tasks.
#[derive(Clone, Copy, Debug)]
pub enum Shown {
    /// If `full`, a line for each event. Otherwise a line for each setpoint that was given and for each text to the
    /// operator.
    Events { full: bool },
    /// The number of events, the number of setpoints given, and the last value of the cell's first persistent.
    Summary,
}
