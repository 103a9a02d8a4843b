use rapid_model::{PartName, Path, Text, Value, show};
use rapid_num::{Bound, Joints, Num, Shape};

/// The longest parts that events may have: a text of 80 characters, twelve axes, and a shape that bounds each of them.
#[derive(Drop)]
pub struct Longest {
    pub path: Path,
    pub text: Text,
    pub joints: Joints,
    pub shape: Shape,
}

impl Longest {
    /// Some, since its numbers are nums.
    pub fn new() -> Option<Longest> {
        let low = Num::new(-9_999_999_999_999)?;
        let high = Num::new(9_999_999_999_999)?;
        let mut axis = [low; 12];
        axis[0] = high;
        axis[5] = Num::new(1)?;
        axis[11] = Num::new(-1)?;
        let mut text = Text::new();
        show(
            &mut text,
            b"~ twelve axes, one shape, eighty characters: as much as an event may ever have ~",
        );
        Some(Longest {
            path: Path {
                index: 1_000,
                part: PartName::Axis(11),
            },
            text,
            joints: Joints { axis },
            shape: Shape {
                inside: true,
                bounds: [Some(Bound { low, high }); 12],
            },
        })
    }

    /// The value of a target.
    pub fn target(&self) -> Value {
        Value::Target(self.joints)
    }
}
