//! Abs, Trunc, StrLen and NumToStr.

ghost use Rattle.std.specs.Prelude.{◌≡◌, ◌*◌, ◌*ℤ◌, pos, nat_abs, length, option_map};
ghost use Rattle.rapid_num.specs.Arithmetic.{whole_part};
ghost use Rattle.rapid_model.specs.declared.function.Function.TheVariants as functions;
ghost use Rattle.rapid_model.specs.declared.value.Value.TheVariants as values;
ghost use Rattle.rapid_meaning.specs.Doings.{or_misfit};
ghost use Rattle.rapid_meaning.specs.Functions.{decimals_of};
ghost use Rattle.rapid_meaning.specs.Values;
ghost use Rattle.rapid_meaning.specs.Values.{num_in};
ghost use Rattle.stack_code.specs.Functions.{of_value, of_values};

use crate::num_text::num_text;
use rapid_model::{Function, Text, Value};
use rapid_num::Num;

/// The result of a function of one value (Abs, Trunc, StrLen). None exactly if the function takes something else or a
/// value of another type.
pub fn value_of(function: Function, value: &Value) -> Option<Value>
    ensures { of_value function value.now ≡ or_misfit result }
{
    match function {
        Function::Abs => abs(value),
        Function::Trunc => trunc(value),
        Function::StrLen => str_len(value),
        _ => None,
    }
}

/// The result of a function of two values (NumToStr). None exactly if the function takes something else or values of
/// other types.
pub fn value_of_two(function: Function, first: &Value, second: &Value) -> Option<Value>
    ensures { of_values function first.now second.now ≡ or_misfit result }
{
    match function {
        Function::NumToStr => num_to_str(first, second),
        _ => None,
    }
}

fn abs(value: &Value) -> Option<Value>
    ensures { of_value functions.Abs value.now ≡ or_misfit result }
{
    match num_of(value) {
        Some(n) => Some(Value::Num(size(n))),
        None => None,
    }
}

fn trunc(value: &Value) -> Option<Value>
    ensures { of_value functions.Trunc value.now ≡ or_misfit result }
{
    match num_of(value) {
        Some(n) => Some(Value::Num(truncated(n))),
        None => None,
    }
}

fn str_len(value: &Value) -> Option<Value>
    ensures { of_value functions.StrLen value.now ≡ or_misfit result }
{
    match text_in(value) {
        Some(text) => Some(Value::Num(characters(text))),
        None => None,
    }
}

fn num_to_str(first: &Value, second: &Value) -> Option<Value>
    ensures { of_values functions.NumToStr first.now second.now ≡ or_misfit result }
{
    match num_of(first) {
        Some(n) => with_decimals(n, second),
        None => None,
    }
}

/// The text of a num with as many decimals as a value says.
fn with_decimals(n: Num, count: &Value) -> Option<Value>
    ensures { of_values functions.NumToStr (values.Num n) count.now ≡ or_misfit result }
{
    match num_of(count) {
        Some(count) => Some(Value::Text(num_text(n, decimals(count)))),
        None => None,
    }
}

/// The num that a value is, if it is one.
pub fn num_of(value: &Value) -> Option<Num>
    ensures { num_in value.now ≡ or_misfit result }
{
    match value {
        Value::Num(n) => Some(*n),
        _ => None,
    }
}

/// The text that a value is, if it is one.
fn text_in(value: &Value) -> Option<&Text>
    ensures { Values.text_in value.now ≡ or_misfit (option_map (λ text. text.now) result) }
{
    match value {
        Value::Text(text) => Some(text),
        _ => None,
    }
}

/// The absolute value of a num.
fn size(n: Num) -> Num
    ensures { result ≡ pos (nat_abs n) }
{
    if n.thousandths() < 0 { n.negated() } else { n }
}

/// The num truncated towards zero.
fn truncated(n: Num) -> Num
    ensures { result ≡ whole_part n 1_000 *ℤ pos 1_000 }
{
    match Num::new(n.thousandths() / 1_000 * 1_000) {
        Some(whole) => whole,
        None => unreachable!(),
    }
}

/// The number of characters of a text.
fn characters(text: &Text) -> Num
    ensures { result ≡ pos (length text.now * 1_000) }
{
    match Num::new(text.bytes().len() as i64 * 1_000) {
        Some(count) => count,
        None => unreachable!(),
    }
}

/// A number of decimals, truncated and clamped to 0 to 3.
fn decimals(count: Num) -> u32
    ensures { result ≡ decimals_of count }
{
    let count = count.thousandths();
    if count < 1_000 {
        0
    } else if count < 2_000 {
        1
    } else if count < 3_000 {
        2
    } else {
        3
    }
}
