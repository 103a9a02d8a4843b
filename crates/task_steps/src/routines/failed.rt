/// What failed in a routine that is in its ERROR part: the place of the operation that failed, from 0, and the number
/// of the error, from 1.
#[derive(Clone, Copy)]
pub struct Failed {
    pub place: u32,
    pub error: u8,
}
