/// The data types (RAPID Instructions, Functions and Data types). `Num` includes errnum and dionum, and `Text` is
/// string. The last five have no values in expressions.
#[derive(Clone, Copy, Debug, PartialEq, Eq)]
pub enum Sort {
    Num,
    Bool,
    Text,
    RobJoint,
    ExtJoint,
    JointTarget,
    SpeedData,
    Tasks,
    IntNum,
    SyncIdent,
    ShapeData,
    WzTemporary,
    WzStationary,
}
