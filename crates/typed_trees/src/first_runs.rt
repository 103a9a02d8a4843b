use crate::datum::Datum;

/// First data as they are kept.
#[derive(Debug)]
pub enum FirstRuns<'a> {
    /// Each datum, in order.
    Each(&'a [Datum]),
    /// One datum, repeated this many times.
    Alike(&'a Datum, usize),
}
