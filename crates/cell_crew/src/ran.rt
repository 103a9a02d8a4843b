use cell_core::Core;

/// The core after a run, and the machines in script order, each having got the answers to its task before the End.
#[derive(Drop)]
pub struct Ran<M> {
    pub core: Core,
    pub machines: Vec<M>,
}
