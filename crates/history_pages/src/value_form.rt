ghost use Rattle.std.specs.Prelude.{◌≡◌, ◌+◌, ◌^◌, ◌<◌, ◌≤◌, true, length, drop};
ghost use Rattle.history_pages.specs.Paged.{with_items};
ghost use Rattle.history_pages.specs.Values.{is_proper_value, value_words};

use crate::words::{Words, num_from, nums_from, put_num, put_nums, put_text, text_from};
use rapid_model::Value;
use rapid_num::Joints;

/// Everything in a value except its words: its type, a truth value, and how many characters a text has. 2 bytes.
#[derive(Clone, Copy, Debug)]
pub(crate) enum ValueForm {
    Num,
    Bool(bool),
    Text(u8),
    Rob,
    Ext,
    Target,
    Speed,
}

impl ValueForm {
    ghost use Rattle.history_pages.specs.Values.{value_form, value_in};

    pub(crate) fn of(value: &Value) -> ValueForm
        ensures { result ≡ value_form value.now }
    {
        match value {
            Value::Num(_) => ValueForm::Num,
            Value::Bool(truth) => ValueForm::Bool(*truth),
            Value::Text(text) => ValueForm::Text(text.bytes().len() as u8),
            Value::Rob(_) => ValueForm::Rob,
            Value::Ext(_) => ValueForm::Ext,
            Value::Target(_) => ValueForm::Target,
            Value::Speed(_) => ValueForm::Speed,
        }
    }

    /// The value of this form whose words begin at an index; `None` if the words spell none.
    pub(crate) fn value(self, words: &Words, from: usize) -> Option<Value>
        requires { from < 2 ^ 33 }
        ensures { result ≡ value_in self (drop from words.now.items) }
    {
        match self {
            ValueForm::Num => Some(Value::Num(num_from(words, from)?)),
            ValueForm::Bool(truth) => Some(Value::Bool(truth)),
            ValueForm::Text(count) => Some(Value::Text(text_from(words, from, count)?)),
            ValueForm::Rob => Some(Value::Rob(nums_from(words, from)?)),
            ValueForm::Ext => Some(Value::Ext(nums_from(words, from)?)),
            ValueForm::Target => {
                let axis = nums_from(words, from)?;
                Some(Value::Target(Joints { axis }))
            }
            ValueForm::Speed => Some(Value::Speed(nums_from(words, from)?)),
        }
    }
}

/// The words of a value.
pub(crate) fn put_value(words: &mut Words, value: &Value)
    requires { length words.old.items + 12 ≤ words.old.room }
    ensures pushed { words.new ≡ with_items words.old (value_words value.now) }
    ensures value { is_proper_value value.now ≡ true }
{
    match value {
        Value::Num(number) => put_num(words, *number),
        Value::Bool(_) => {}
        Value::Text(text) => put_text(words, text),
        Value::Rob(axes) => put_nums(words, axes),
        Value::Ext(axes) => put_nums(words, axes),
        Value::Target(joints) => put_nums(words, &joints.axis),
        Value::Speed(parts) => put_nums(words, parts),
    }
}
