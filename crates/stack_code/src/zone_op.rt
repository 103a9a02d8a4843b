/// An operation on a zone (RAPID Instructions: WZEnable, WZDisable, WZFree).
#[derive(Clone, Copy)]
pub enum ZoneOp {
    On,
    Off,
    Free,
}
