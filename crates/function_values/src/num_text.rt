//! Nums as texts with a fixed number of decimals.

ghost use Rattle.std.specs.Prelude.{◌≡◌, ◌+◌, ◌-◌, ◌^◌, ◌<◌, ◌≤◌, nat_abs, [], ◌∷◌, ◌++◌, decimal, length};
ghost use Rattle.rapid_num.specs.Arithmetic.{rounded};
ghost use Rattle.rapid_meaning.specs.Functions;

use itoa::Buffer;
use rapid_limits::LONGEST_STRING;
use rapid_model::{Text, show};
use rapid_num::Num;

/// A num with 0 to 3 decimals, rounded half away from zero.
pub(crate) fn num_text(value: Num, decimals: u32) -> Text
    requires { decimals ≤ 3 }
    ensures { result ≡ Functions.num_text value decimals }
{
    let size = size_in(value, decimals);
    let mut text = sign(value, size);
    show_size(size, decimals, &mut text);
    text
}

/// The absolute value of a num in units of its last decimal.
fn size_in(value: Num, decimals: u32) -> u64
    requires { decimals ≤ 3 }
    ensures size { result ≡ rounded (nat_abs value) (10 ^ (3 - decimals)) }
    ensures few { result < 10 ^ 13 }
{
    let size = value.thousandths().unsigned_abs();
    match decimals {
        0 => (2 * size + 1_000) / 2_000,
        1 => (2 * size + 100) / 200,
        2 => (2 * size + 10) / 20,
        _ => size,
    }
}

/// A minus for a num below zero, if its digits are not all zero.
fn sign(value: Num, size: u64) -> Text
    ensures sign { result ≡ Functions.sign_text value size }
    ensures short { length result ≤ 1 }
{
    let mut text = Text::new();
    if value.thousandths() < 0 && size != 0 {
        text.push(b'-');
    }
    text
}

/// Appends a size, with a point before its decimals if it has any.
fn show_size(size: u64, decimals: u32, text: &mut Text)
    requires decimals { decimals ≤ 3 }
    requires few { size < 10 ^ 13 }
    requires room { length text.old ≤ 1 }
    ensures { text.new ≡ text.old ++ Functions.size_text decimals size }
{
    match decimals {
        0 => show_whole(size, text),
        1 => {
            show_whole(size / 10, text);
            show_point(text);
            show_digit(size % 10, text);
        }
        2 => {
            show_whole(size / 100, text);
            show_point(text);
            show_digit(size % 100 / 10 % 10, text);
            show_digit(size % 100 % 10, text);
        }
        3 => {
            show_whole(size / 1_000, text);
            show_point(text);
            show_digit(size % 1_000 / 10 / 10 % 10, text);
            show_digit(size % 1_000 / 10 % 10, text);
            show_digit(size % 1_000 % 10, text);
        }
        _ => unreachable!(),
    }
}

/// Appends a whole number, for which there is room.
fn show_whole(whole: u64, text: &mut Text)
    requires few { whole < 10 ^ 13 }
    requires room { length text.old ≤ 1 }
    ensures whole { text.new ≡ text.old ++ decimal whole }
    ensures short { length text.new ≤ 14 }
{
    let mut buffer = Buffer::new();
    show(text, buffer.format(whole).as_bytes());
}

/// Appends the decimal point.
fn show_point(text: &mut Text)
    requires { length text.old < LONGEST_STRING }
    ensures { text.new ≡ text.old ++ 46 ∷ [] }
{
    text.push(b'.');
}

/// Appends a decimal digit.
fn show_digit(digit: u64, text: &mut Text)
    requires digit { digit < 10 }
    requires room { length text.old < LONGEST_STRING }
    ensures { text.new ≡ text.old ++ (48 + digit) ∷ [] }
{
    text.push(b'0' + digit as u8);
}
