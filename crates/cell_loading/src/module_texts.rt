use rapid_model::Script;

/// The modules of a cell's tasks: the script, which names their files task by task, and their texts in the order in
/// which they are read.
#[derive(Drop)]
pub struct ModuleTexts {
    pub script: Script,
    pub texts: Vec<Vec<u8>>,
}
