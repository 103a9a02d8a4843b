ghost use Rattle.std.specs.Prelude.{◌≡◌};

use crate::printable::Text;
use rapid_num::{Joints, Num};

/// A value of RAPID (RAPID Overview, basic elements; RAPID Instructions, Functions and Data types).
#[derive(Debug, PartialEq, Eq, Drop)]
pub enum Value {
    /// num.
    Num(Num),
    /// bool.
    Bool(bool),
    /// string, and the name of a task in a tasks.
    Text(Text),
    /// robjoint: `rax_1` to `rax_6` in thousandths of a degree.
    Rob([Num; 6]),
    /// extjoint: `eax_a` to `eax_f`.
    Ext([Num; 6]),
    /// jointtarget.
    Target(Joints),
    /// speeddata: `v_tcp`, `v_ori`, `v_leax`, `v_reax`.
    Speed([Num; 4]),
}

impl Value {
    /// An equal value.
    pub fn copy(&self) -> Value
        ensures { result ≡ self.now }
    {
        match self {
            Value::Num(number) => Value::Num(*number),
            Value::Bool(truth) => Value::Bool(*truth),
            Value::Text(text) => Value::Text(text.copy()),
            Value::Rob(axes) => Value::Rob(*axes),
            Value::Ext(axes) => Value::Ext(*axes),
            Value::Target(joints) => Value::Target(*joints),
            Value::Speed(parts) => Value::Speed(*parts),
        }
    }
}
