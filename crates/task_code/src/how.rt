/// How execution continues after a statement failed: with the statement again, or after it (RAPID Instructions: RETRY,
/// TRYNEXT).
#[derive(Clone, Copy)]
pub enum How {
    Retry,
    Next,
}
