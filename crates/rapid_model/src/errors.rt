//! The errors that RAPID itself raises, by their values of ERRNO (RAPID Overview, error recovery).

/// ERR_DIVZERO: division by zero.
pub const ERR_DIVZERO: u8 = 101;

/// ERR_STRTOOLNG: a string would have more than 80 characters.
pub const ERR_STRTOOLNG: u8 = 102;

/// ERR_ALRDYCNT: the interrupt is already connected, or already ordered.
pub const ERR_ALRDYCNT: u8 = 103;

/// ERR_UNKINO: no interrupt has this number.
pub const ERR_UNKINO: u8 = 104;

/// ERR_INOMAX: no more interrupt numbers are available.
pub const ERR_INOMAX: u8 = 105;
