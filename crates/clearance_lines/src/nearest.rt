use zone_clearance::Gap;

/// The gap of a segment of an arm's path, and the number of the event that gave the segment; none for an arm that stays
/// at its start.
#[derive(Clone, Copy, Debug)]
pub(crate) struct Nearest {
    pub(crate) event: Option<u32>,
    pub(crate) gap: Gap,
}
