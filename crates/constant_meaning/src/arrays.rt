use rapid_model::Value;

/// The elements of constant arrays: those of modules by their number among the slots, those of the routine by their
/// index among its parameters and data. `None` unless that datum is a constant array with known elements.
#[derive(Clone, Copy)]
pub struct Arrays<'a> {
    pub slots: &'a [Option<Vec<Value>>],
    pub locals: &'a [Option<Vec<Value>>],
}
