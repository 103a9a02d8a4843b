use rapid_model::{Text, Value};
use rapid_num::Num;

/// A value in a row, with nums in thousandths.
#[derive(Clone, Copy)]
pub(crate) enum Written {
    Num(i64),
    Bool(bool),
    Text(&'static [u8]),
    Rob([i64; 6]),
    Ext([i64; 6]),
    Speed([i64; 4]),
}

impl Written {
    pub(crate) fn value(self) -> Option<Value> {
        Some(match self {
            Written::Num(count) => Value::Num(Num::new(count)?),
            Written::Bool(truth) => Value::Bool(truth),
            Written::Text(bytes) => Value::Text(text(bytes)),
            Written::Rob(counts) => Value::Rob(six(counts)?),
            Written::Ext(counts) => Value::Ext(six(counts)?),
            Written::Speed(counts) => Value::Speed(four(counts)?),
        })
    }
}

pub(crate) fn text(bytes: &[u8]) -> Text {
    let mut text = Text::new();
    for byte in bytes {
        text.push(*byte);
    }
    text
}

pub(crate) fn four(counts: [i64; 4]) -> Option<[Num; 4]> {
    let [a, b, c, d] = counts;
    Some([Num::new(a)?, Num::new(b)?, Num::new(c)?, Num::new(d)?])
}

pub(crate) fn six(counts: [i64; 6]) -> Option<[Num; 6]> {
    let [a, b, c, d, e, f] = counts;
    let [a, b, c, d] = four([a, b, c, d])?;
    Some([a, b, c, d, Num::new(e)?, Num::new(f)?])
}
