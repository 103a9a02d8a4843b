//! Nums as decimal text.
ghost use Rattle.std.specs.Prelude.{◌≡◌, ℕ, ◌+◌, ◌/◌, ◌%◌, ◌<◌, ◌≤◌, pos, nat_abs, [], ◌∷◌, ◌++◌, drop, decimal, Some};
ghost use Rattle.arrayvec.specs.ArrayString.{array_string_len};
ghost use Rattle.rapid_num.specs.Literal.{literal_value};
ghost use Rattle.rapid_num.specs.Range.{IsNum};
ghost use Rattle.rapid_num.specs.NumText.{fixed_text, fraction_text, shortest_text, sign_text, three_digits};

use crate::num::Num;
use arrayvec::ArrayString;
use itoa::Buffer;

/// The shortest decimal text, as `5`, `2.5` and `-0.001`: at most 15 bytes.
pub fn write_num(value: Num, text: &mut ArrayString<24>)
    requires empty { text.old.bytes ≡ [] }
    ensures text { text.new.bytes ≡ shortest_text value }
    ensures short { array_string_len text.new ≤ 15 }
    // The text of a num without a sign can be read back.
    ensures reads_back { (n : ℕ) → value ≡ pos n → literal_value text.new.bytes ≡ Some value }
{
    let rest = push_whole(value, text);
    push_fraction(rest, text);
}

/// Appends the text with three decimals, as `5.000`: at most 15 bytes.
pub fn push_fixed<const N: usize>(value: Num, text: &mut ArrayString<N>)
    requires room { array_string_len text.old + 15 ≤ N }
    ensures text { text.new.bytes ≡ text.old.bytes ++ fixed_text value }
    ensures short { array_string_len text.new ≤ array_string_len text.old + 15 }
    // What is appended for a num without a sign can be read back.
    ensures reads_back { (n : ℕ) → value ≡ pos n → literal_value (drop (array_string_len text.old) text.new.bytes) ≡ Some value }
{
    let rest = push_whole(value, text);
    text.push('.');
    push_three_digits(rest, text);
}

/// A minus sign for a negative value.
fn push_sign<const N: usize>(value: Num, text: &mut ArrayString<N>)
    requires room { array_string_len text.old < N }
    ensures text { text.new.bytes ≡ text.old.bytes ++ sign_text value }
    ensures short { array_string_len text.new ≤ array_string_len text.old + 1 }
{
    if value.thousandths() < 0 {
        text.push('-');
    }
}

/// The sign and the integer part. Returns the thousandths below one.
fn push_whole<const N: usize>(value: Num, text: &mut ArrayString<N>) -> u64
    requires room { array_string_len text.old + 11 ≤ N }
    ensures text { text.new.bytes ≡ text.old.bytes ++ (sign_text value ++ decimal (nat_abs value / 1000)) }
    ensures rest { result ≡ nat_abs value % 1000 }
    ensures short { array_string_len text.new ≤ array_string_len text.old + 11 }
    ensures range { IsNum value }
{
    push_sign(value, text);
    let size = value.thousandths().unsigned_abs();
    let mut buffer = Buffer::new();
    text.push_str(buffer.format(size / 1000));
    size % 1000
}

/// One decimal digit.
fn push_digit<const N: usize>(digit: u64, text: &mut ArrayString<N>)
    requires digit { digit < 10 }
    requires room { array_string_len text.old < N }
    ensures { text.new.bytes ≡ text.old.bytes ++ (48 + digit) ∷ [] }
{
    text.push(char::from(b'0' + digit as u8));
}

/// The digits for hundreds, tens and ones.
fn push_three_digits<const N: usize>(rest: u64, text: &mut ArrayString<N>)
    requires below_one { rest < 1000 }
    requires room { array_string_len text.old + 3 ≤ N }
    ensures { text.new.bytes ≡ text.old.bytes ++ three_digits rest }
{
    push_digit(rest / 100, text);
    push_digit(rest / 10 % 10, text);
    push_digit(rest % 10, text);
}

/// Thousandths below one: a decimal point and digits without trailing zeros.
fn push_fraction<const N: usize>(rest: u64, text: &mut ArrayString<N>)
    requires below_one { rest < 1000 }
    requires room { array_string_len text.old + 4 ≤ N }
    ensures text { text.new.bytes ≡ text.old.bytes ++ fraction_text rest }
    ensures short { array_string_len text.new ≤ array_string_len text.old + 4 }
{
    if rest == 0 {
        return;
    }
    text.push('.');
    if rest % 100 == 0 {
        push_digit(rest / 100, text);
    } else if rest % 10 == 0 {
        push_digit(rest / 100, text);
        push_digit(rest / 10 % 10, text);
    } else {
        push_three_digits(rest, text);
    }
}
