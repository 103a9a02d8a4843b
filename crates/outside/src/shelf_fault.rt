/// Why a read of a shelf did not return a whole file.
#[derive(Clone, Copy, Debug, PartialEq, Eq)]
pub enum ShelfFault {
    /// The file is not available. Nothing was appended, and the shelf counted a fault.
    Failed,
    /// The file has more bytes than the limit. The first of them, one more than the limit, were appended.
    TooLong,
    /// Out of memory. Nothing was appended.
    Memory,
}
