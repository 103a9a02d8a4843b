/// Why no number is connected (RAPID Instructions: CONNECT).
#[derive(Clone, Copy, Debug, PartialEq, Eq)]
pub enum ConnectFault {
    /// The variable's number is already connected.
    Already,
    /// The task already has 64 interrupts.
    NoMore,
}
