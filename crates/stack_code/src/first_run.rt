use typed_trees::Datum;

/// A run of equal data that a frame begins with. An array without values is one run, however long it is. 120 bytes.
#[derive(Drop)]
pub struct FirstRun {
    pub datum: Datum,
    pub count: u32,
}
