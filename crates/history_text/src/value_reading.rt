//! Reading values and positions of an arm.

ghost use Rattle.std.specs.Prelude.{◌≡◌, ◌-◌, ◌∷◌};
ghost use Rattle.std.specs.Option.{option_map};
ghost use Rattle.rapid_num.specs.Reach.{absent_axes};
ghost use Rattle.history_text.specs.Reading.{four_nums, six_nums};
ghost use Rattle.history_text.specs.ValueReading.{nums_in_brackets, place_at, target_at, text_value, value_at};

use crate::numbers::{Four, Six, four_at, next_num, num_at, six_at};
use crate::quotes::quoted_at;
use crate::words::{after_word, truth_at};
use rapid_limits::MOST_AXES;
use rapid_model::{Sort, Value};
use rapid_num::{Joints, Num};

/// A value of a type.
#[tactic(auto, unfolding(crate::specs::ValueReading::value_at))]
pub(crate) fn value_at(sort: Sort, text: &[u8]) -> Option<(Value, &[u8])>
    ensures { option_map (λ x. (x.0, x.1.now)) result ≡ value_at sort text.now }
{
    match sort {
        Sort::Num => {
            let Some((number, rest)) = num_at(text) else {
                return None;
            };
            Some((Value::Num(number), rest))
        }
        Sort::Bool => {
            let (truth, rest) = truth_at(text)?;
            Some((Value::Bool(truth), rest))
        }
        Sort::Text => text_value(text),
        Sort::Tasks => text_value(text),
        Sort::RobJoint => {
            let Some(((a, b, c, d, e, f), rest)) = six_in_brackets(text) else {
                return None;
            };
            Some((Value::Rob([a, b, c, d, e, f]), rest))
        }
        Sort::ExtJoint => {
            let Some(((a, b, c, d, e, f), rest)) = six_in_brackets(text) else {
                return None;
            };
            Some((Value::Ext([a, b, c, d, e, f]), rest))
        }
        Sort::JointTarget => {
            let Some((target, rest)) = target_at(text) else {
                return None;
            };
            Some((Value::Target(target), rest))
        }
        Sort::SpeedData => {
            let Some(((a, b, c, d), rest)) = four_in_brackets(text) else {
                return None;
            };
            Some((Value::Speed([a, b, c, d]), rest))
        }
        _ => None,
    }
}

/// A text as a value.
fn text_value(text: &[u8]) -> Option<(Value, &[u8])>
    ensures { option_map (λ x. (x.0, x.1.now)) result ≡ text_value text.now }
{
    let Some((text, rest)) = quoted_at(text) else {
        return None;
    };
    Some((Value::Text(text), rest))
}

/// Four nums in brackets.
#[tactic(auto, unfolding(crate::specs::ValueReading::nums_in_brackets))]
fn four_in_brackets(text: &[u8]) -> Option<(Four, &[u8])>
    ensures { option_map (λ x. (four_nums x.0, x.1.now)) result ≡ nums_in_brackets 3 text.now }
{
    let first = after_word(text, b"[")?;
    let Some((nums, rest)) = four_at(b',', first) else {
        return None;
    };
    let rest = after_word(rest, b"]")?;
    Some((nums, rest))
}

/// Six nums in brackets.
#[tactic(auto, unfolding(crate::specs::ValueReading::nums_in_brackets))]
fn six_in_brackets(text: &[u8]) -> Option<(Six, &[u8])>
    ensures { option_map (λ x. (six_nums x.0, x.1.now)) result ≡ nums_in_brackets 5 text.now }
{
    let first = after_word(text, b"[")?;
    let Some((nums, rest)) = six_at(b',', first) else {
        return None;
    };
    let rest = after_word(rest, b"]")?;
    Some((nums, rest))
}

/// A jointtarget: its robjoint and its extjoint in brackets.
#[tactic(auto, unfolding(crate::specs::ValueReading::target_at))]
fn target_at(text: &[u8]) -> Option<(Joints, &[u8])>
    ensures { option_map (λ x. (x.0, x.1.now)) result ≡ target_at text.now }
{
    let rest = after_word(text, b"[")?;
    let Some(((a, b, c, d, e, f), rest)) = six_in_brackets(rest) else {
        return None;
    };
    let rest = after_word(rest, b",")?;
    let Some(((g, h, i, j, k, l), rest)) = six_in_brackets(rest) else {
        return None;
    };
    let rest = after_word(rest, b"]")?;
    let axis = [a, b, c, d, e, f, g, h, i, j, k, l];
    Some((Joints { axis }, rest))
}

/// A position of an arm, with as many axes as there are nums.
#[tactic(auto, unfolding(crate::specs::ValueReading::place_at))]
pub(crate) fn place_at(text: &[u8]) -> Option<(Joints, &[u8])>
    ensures { option_map (λ x. (x.0, x.1.now)) result ≡ place_at text.now }
{
    let Some(first) = num_at(text) else {
        return None;
    };
    let mut axis = first_axis(first.0);
    let mut rest = first.1;
    for place in 1..MOST_AXES {
        let Some(next) = next_num(b' ', rest) else {
            return Some((Joints { axis }, rest));
        };
        axis[place] = next.0;
        rest = next.1;
    }
    Some((Joints { axis }, rest))
}

/// The first axis, and eleven that are not given.
fn first_axis(first: Num) -> [Num; MOST_AXES]
    ensures { result ≡ first ∷ absent_axes (MOST_AXES - 1) }
{
    let mut axis = [Num::new(9_000_000_000_000).unwrap(); MOST_AXES];
    axis[0] = first;
    axis
}
