//! The states of the scanner: what the bytes so far are a prefix of.

ghost use Rattle.std.specs.Prelude.{◌≡◌, ◌↔◌, IsTrue};
ghost use Rattle.rapid_lexer.specs.Scanning.{
  after_character,
  after_escape,
  after_exponent,
  after_fraction,
  after_less,
  after_start,
  after_whole,
  after_zero,
  kind_at,
  step,
  where_single,
  where_so,
};
ghost use Rattle.rapid_lexer.specs.declared.state.State.TheVariants.{Dead};

use crate::bytes::{
    is_code, is_digit, is_exponent_letter, is_hex, is_letter, is_name_byte, single_of,
};
use crate::kind::Kind;
use crate::mark::Mark;
use rapid_num::{digit_value, is_printable};

#[derive(Clone, Copy, Debug, PartialEq, Eq)]
pub(crate) enum State {
    /// No bytes yet.
    Start,
    InName,
    /// An initial `0`.
    Zero,
    /// Digits without a point so far.
    Whole,
    /// Only a point.
    Dot,
    /// A point with digits on at least one side.
    Fraction,
    /// The letter of an exponent.
    Exponent,
    ExponentSign,
    /// The digits of an exponent.
    Power,
    HexMark,
    Hex,
    OctalMark,
    Octal,
    BinaryMark,
    Binary,
    /// A quote and characters.
    Inside,
    /// A quote that may close the string.
    Closed,
    /// A backslash in a string.
    Escape,
    /// A backslash in a string and this hexadecimal digit.
    Code(u8),
    Colon,
    Less,
    Greater,
    /// A mark that no longer mark starts with.
    Single(Mark),
    /// Not a prefix of a token.
    Dead,
}

fn after_start(byte: u8) -> State
    ensures { result ≡ after_start byte }
{
    if is_letter(byte) {
        State::InName
    } else if byte == b'0' {
        State::Zero
    } else if is_digit(byte) {
        State::Whole
    } else if byte == b'"' {
        State::Inside
    } else if byte == b'.' {
        State::Dot
    } else if byte == b':' {
        State::Colon
    } else if byte == b'<' {
        State::Less
    } else if byte == b'>' {
        State::Greater
    } else {
        where_single(single_of(byte))
    }
}

fn where_single(mark: Option<Mark>) -> State
    ensures { result ≡ where_single mark }
{
    match mark {
        Some(mark) => State::Single(mark),
        None => State::Dead,
    }
}

fn after_less(byte: u8) -> State
    ensures { result ≡ after_less byte }
{
    if byte == b'=' {
        State::Single(Mark::LessEqual)
    } else if byte == b'>' {
        State::Single(Mark::NotEqual)
    } else {
        State::Dead
    }
}

fn after_whole(byte: u8) -> State
    ensures { result ≡ after_whole byte }
{
    if is_digit(byte) {
        State::Whole
    } else if byte == b'.' {
        State::Fraction
    } else if is_exponent_letter(byte) {
        State::Exponent
    } else {
        State::Dead
    }
}

fn after_zero(byte: u8) -> State
    ensures { result ≡ after_zero byte }
{
    if byte == b'x' || byte == b'X' {
        State::HexMark
    } else if byte == b'o' || byte == b'O' {
        State::OctalMark
    } else if byte == b'b' || byte == b'B' {
        State::BinaryMark
    } else {
        after_whole(byte)
    }
}

fn after_fraction(byte: u8) -> State
    ensures { result ≡ after_fraction byte }
{
    if is_digit(byte) {
        State::Fraction
    } else if is_exponent_letter(byte) {
        State::Exponent
    } else {
        State::Dead
    }
}

fn after_exponent(byte: u8) -> State
    ensures { result ≡ after_exponent byte }
{
    if byte == b'+' || byte == b'-' {
        State::ExponentSign
    } else if is_digit(byte) {
        State::Power
    } else {
        State::Dead
    }
}

fn after_character(byte: u8) -> State
    ensures { result ≡ after_character byte }
{
    if byte == b'"' {
        State::Closed
    } else if byte == b'\\' {
        State::Escape
    } else if is_printable(byte) {
        State::Inside
    } else {
        State::Dead
    }
}

fn after_escape(byte: u8) -> State
    ensures { result ≡ after_escape byte }
{
    if byte == b'\\' {
        State::Inside
    } else if is_hex(byte) {
        State::Code(byte)
    } else {
        State::Dead
    }
}

fn where_so(test: bool, state: State) -> State
    ensures { result ≡ where_so test state }
{
    if test { state } else { State::Dead }
}

impl State {
    /// The state after one more byte.
    pub(crate) fn step(self, byte: u8) -> State
        ensures { result ≡ step self byte }
    {
        match self {
            State::Start => after_start(byte),
            State::InName => where_so(is_name_byte(byte), State::InName),
            State::Zero => after_zero(byte),
            State::Whole => after_whole(byte),
            State::Dot => where_so(is_digit(byte), State::Fraction),
            State::Fraction => after_fraction(byte),
            State::Exponent => after_exponent(byte),
            State::ExponentSign | State::Power => where_so(is_digit(byte), State::Power),
            State::HexMark | State::Hex => where_so(is_hex(byte), State::Hex),
            State::OctalMark | State::Octal => where_so(digit_value(byte) < 8, State::Octal),
            State::BinaryMark | State::Binary => where_so(digit_value(byte) < 2, State::Binary),
            State::Inside => after_character(byte),
            State::Closed => where_so(byte == b'"', State::Inside),
            State::Escape => after_escape(byte),
            State::Code(high) => where_so(is_code(high, byte), State::Inside),
            State::Colon => where_so(byte == b'=', State::Single(Mark::Assign)),
            State::Less => after_less(byte),
            State::Greater => where_so(byte == b'=', State::Single(Mark::GreaterEqual)),
            State::Single(_) | State::Dead => State::Dead,
        }
    }

    /// The kind of the token that the bytes so far are, with a reserved word as a name.
    pub(crate) fn kind(self) -> Option<Kind>
        ensures { result ≡ kind_at self }
    {
        match self {
            State::InName => Some(Kind::Name),
            State::Zero | State::Whole | State::Fraction | State::Power => Some(Kind::Number),
            State::Hex | State::Octal | State::Binary => Some(Kind::Number),
            State::Closed => Some(Kind::Quoted),
            State::Dot => Some(Kind::Mark(Mark::Dot)),
            State::Colon => Some(Kind::Mark(Mark::Colon)),
            State::Less => Some(Kind::Mark(Mark::Less)),
            State::Greater => Some(Kind::Mark(Mark::Greater)),
            State::Single(mark) => Some(Kind::Mark(mark)),
            State::Start | State::Exponent | State::ExponentSign | State::HexMark => None,
            State::OctalMark | State::BinaryMark | State::Inside => None,
            State::Escape | State::Code(_) | State::Dead => None,
        }
    }

    /// Whether the bytes so far are not a prefix of a token.
    pub(crate) fn is_dead(self) -> bool
        ensures { IsTrue result ↔ (self ≡ Dead) }
    {
        match self {
            State::Dead => true,
            _ => false,
        }
    }
}
