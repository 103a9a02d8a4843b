use rapid_model::At;

/// What the operations of a statement share: where RETRY and TRYNEXT resume it, and its place in the source (RAPID
/// Overview, error recovery).
#[derive(Clone, Copy)]
pub(crate) struct Own {
    pub(crate) retry: u32,
    pub(crate) next: u32,
    pub(crate) at: At,
}
