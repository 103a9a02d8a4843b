/// A line of a listing, in bytes.
pub const LINE_BYTES: usize = 512;
