use crate::standing::Standing;
use cell_gate::Pass;

/// A task during a run.
#[derive(Drop)]
pub struct Job<M> {
    pub machine: M,
    pub pass: Pass,
    pub standing: Standing,
}
