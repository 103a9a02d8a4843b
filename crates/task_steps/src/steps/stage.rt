use rapid_model::Fate;

/// The stage of a task: it has not begun; it goes on with the operation at its place; it has asked its request, and goes on
/// with the answer; or it has ended.
#[derive(Clone, Copy)]
pub(crate) enum Stage {
    New,
    Going,
    Asking,
    Over(Fate),
}
