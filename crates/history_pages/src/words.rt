//! Words: how nums, shapes and texts are written as integers of 8 bytes, and read back.

ghost use Rattle.std.specs.Prelude.{◌≡◌, ◌+◌, ◌*◌, ◌/◌, ◌^◌, ◌<◌, ◌≤◌, true, [], ◌∷◌, ◌&&◌, length, drop, slice_index};
ghost use Rattle.std.specs.List.{list_all};
ghost use Rattle.rapid_num.specs.Range.{is_num};
ghost use Rattle.history_pages.specs.Paged.{with_items};
ghost use Rattle.history_pages.specs.Words.{bound_of, bound_words, byte_at, is_proper_bound, is_proper_shape, is_text, num_in, nums_in, shape_in, shape_words, text_in, text_words, word_of};

use crate::paged::Paged;
use rapid_limits::{LONGEST_STRING, MOST_AXES};
use rapid_model::Text;
use rapid_num::{Bound, Num, Shape};

/// The words of a history, in pages of 256 KiB.
pub(crate) type Words = Paged<i64, 32_768>;

/// The word for a missing bound: no num is that great.
const NO_NUM: i64 = i64::MAX;

/// Adds a num.
pub(crate) fn put_num(words: &mut Words, number: Num)
    requires { length words.old.items < words.old.room }
    ensures pushed { words.new ≡ with_items words.old (number ∷ []) }
    ensures number { is_num number ≡ true }
{
    words.push(number.thousandths());
}

/// Adds nums.
pub(crate) fn put_nums(words: &mut Words, nums: &[Num])
    requires { length words.old.items + length nums.now ≤ words.old.room }
    ensures pushed { words.new ≡ with_items words.old nums.now }
    ensures nums { list_all is_num nums.now ≡ true }
{
    for number in nums {
        put_num(words, *number);
    }
}

/// Adds the bounds of a shape.
pub(crate) fn put_shape(words: &mut Words, shape: &Shape)
    requires { length words.old.items + 24 ≤ words.old.room }
    ensures pushed { words.new ≡ with_items words.old (shape_words shape.now) }
    ensures shape { is_proper_shape shape.now ≡ true }
{
    bounds_each_axis(&shape.bounds);
    for bound in &shape.bounds {
        put_bound(words, bound);
    }
}

/// A shape has a place for the bounds of each axis.
fn bounds_each_axis(bounds: &[Option<Bound>; MOST_AXES])
    ensures { length bounds.now ≡ MOST_AXES }
{}

/// Adds the bounds of an axis, if it has any.
fn put_bound(words: &mut Words, bound: &Option<Bound>)
    requires { length words.old.items + 2 ≤ words.old.room }
    ensures pushed { words.new ≡ with_items words.old (bound_words bound.now) }
    ensures bound { is_proper_bound bound.now ≡ true }
{
    match bound {
        Some(bound) => {
            put_num(words, bound.low);
            put_num(words, bound.high);
        }
        None => {
            words.push(NO_NUM);
            words.push(NO_NUM);
        }
    }
}

/// Adds the characters of a text.
pub(crate) fn put_text(words: &mut Words, text: &Text)
    requires { length words.old.items + 10 ≤ words.old.room }
    ensures pushed { words.new ≡ with_items words.old (text_words text.now) }
    ensures text { is_text text.now ≡ true }
{
    let bytes = text.bytes();
    let count = (bytes.len() + 7) / 8;
    for k in 0..count {
        words.push(word_from(bytes, 8 * k));
    }
}

/// Eight bytes from this index on, as a word, the first one lowest. Past the end they are 0.
fn word_from(bytes: &[u8], from: usize) -> i64
    requires { from + 8 < 2 ^ 64 }
    ensures { result ≡ word_of (drop from bytes.now) }
{
    i64::from_le_bytes([
        byte_or_zero(bytes, from),
        byte_or_zero(bytes, from + 1),
        byte_or_zero(bytes, from + 2),
        byte_or_zero(bytes, from + 3),
        byte_or_zero(bytes, from + 4),
        byte_or_zero(bytes, from + 5),
        byte_or_zero(bytes, from + 6),
        byte_or_zero(bytes, from + 7),
    ])
}

fn byte_or_zero(bytes: &[u8], index: usize) -> u8
    ensures { result ≡ slice_index bytes.now index }
{
    if index < bytes.len() { bytes[index] } else { 0 }
}

/// How many words there are from an index on.
fn left(words: &Words, from: usize) -> usize
    ensures { result ≡ length (drop from words.now.items) }
{
    words.len().saturating_sub(from)
}

/// The num at an index; `None` if there is no such word, or it is not a num.
pub(crate) fn num_from(words: &Words, from: usize) -> Option<Num>
    ensures { result ≡ num_in (drop from words.now.items) }
{
    Num::new(words.get(from)?)
}

/// That many nums from an index on; `None` if there are not enough words, or one is not a num.
pub(crate) fn nums_from<const COUNT: usize>(words: &Words, from: usize) -> Option<[Num; COUNT]>
    requires few { COUNT ≤ 24 }
    requires from { from < 2 ^ 33 }
    ensures { result ≡ nums_in COUNT (drop from words.now.items) }
{
    if left(words, from) < COUNT {
        return None;
    }
    let mut nums = [Num::new(0)?; COUNT];
    for k in 0..COUNT {
        nums[k] = Num::new(words.at(from + k))?;
    }
    Some(nums)
}

/// The shape whose bounds begin at an index; `None` if there are not enough words.
pub(crate) fn shape_from(words: &Words, from: usize, inside: bool) -> Option<Shape>
    requires { from < 2 ^ 33 }
    ensures { result ≡ shape_in inside (drop from words.now.items) }
{
    if left(words, from) < 2 * MOST_AXES {
        return None;
    }
    let mut bounds = [None; MOST_AXES];
    for axis in 0..MOST_AXES {
        let low = words.at(from + 2 * axis);
        let high = words.at(from + 2 * axis + 1);
        bounds[axis] = bound_of(low, high);
    }
    Some(Shape { inside, bounds })
}

/// The bounds that two words spell; `None` unless both are nums.
fn bound_of(low: i64, high: i64) -> Option<Bound>
    ensures { result ≡ bound_of low high }
{
    match (Num::new(low), Num::new(high)) {
        (Some(low), Some(high)) => Some(Bound { low, high }),
        _ => None,
    }
}

/// The text of that many bytes that begins at an index; `None` if there are not enough words, or they spell no text.
pub(crate) fn text_from(words: &Words, from: usize, count: u8) -> Option<Text>
    requires { from < 2 ^ 33 }
    ensures { result ≡ text_in count (drop from words.now.items) }
{
    let count = usize::from(count);
    if LONGEST_STRING < count {
        return None;
    }
    if left(words, from) < (count + 7) / 8 {
        return None;
    }
    let mut text = Text::new();
    for k in 0..count {
        if !text.push(byte_from(words, from, k)) {
            return None;
        }
    }
    Some(text)
}

/// A byte of the text that begins at an index, whose word exists.
fn byte_from(words: &Words, from: usize, k: usize) -> u8
    requires within { from + k / 8 < length words.now.items }
    requires from { from < 2 ^ 33 }
    requires k { k ≤ LONGEST_STRING }
    ensures { result ≡ byte_at (drop from words.now.items) k }
{
    let bytes = words.at(from + k / 8).to_le_bytes();
    bytes[k % 8]
}
