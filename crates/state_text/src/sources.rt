use rapid_model::FileName;

/// The modules of a task: the names of their files in the script, and their texts.
#[derive(Clone, Copy)]
pub struct Sources<'a> {
    pub files: &'a [FileName],
    pub texts: &'a [Vec<u8>],
}
