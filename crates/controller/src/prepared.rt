use cell_loading::{CheckedCell, ModuleTexts};

/// What an action is done with: an accepted cell; the modules of its tasks, if the action prints places; and the text of
/// the history that it reads last, otherwise an empty one.
#[derive(Drop)]
pub(crate) struct Prepared {
    pub accepted: CheckedCell,
    pub modules: Option<ModuleTexts>,
    pub text: Vec<u8>,
}
