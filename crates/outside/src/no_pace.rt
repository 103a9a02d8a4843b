use super::Pace;

/// Tasks continue without a pause.
pub struct NoPace;

impl Pace for NoPace {
    fn pause(&self, _task: u32) {}
}
