/// A side of a zone: a bound of an axis, which is numbered from 1, or `Zero`, the distance 0 of an Inside zone.
#[derive(Clone, Copy, Debug, PartialEq, Eq)]
pub enum Side {
    Zero,
    Low(u8),
    High(u8),
}
