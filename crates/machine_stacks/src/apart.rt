//! What lies apart for the words of a row.

ghost use Rattle.std.specs.Prelude.{◌≡◌, ◌+◌, ◌<◌, ◌≤◌, ◌++◌, List, length, replicate, slice_get, slice_set, vec_len};
ghost use Rattle.std.specs.Option.{option_copied};
ghost use Rattle.std.specs.Vec.{vec_capacity};
ghost use Rattle.typed_trees.specs.declared.datum.Datum.TheVariants.{Mark};
ghost use Rattle.rapid_meaning.specs.Places.{place_in};
ghost use Rattle.machine_stacks.specs.Forms.{as_bool, as_num};
ghost use Rattle.machine_stacks.specs.Words.{apart_of, data_in, datum_in};
ghost use Rattle.machine_stacks.specs.declared.word.Word.{Word as AWord};
ghost use Rattle.machine_stacks.specs.declared.word.Word.TheVariants.{Apart};

use crate::held::Held;
use crate::word::Word;
use rapid_num::Num;
use std::mem;
use typed_trees::Lvalue;

/// The word at an index, if there is one.
pub(crate) fn word_at(words: &[Word], index: usize) -> Option<Word>
    ensures { result ≡ slice_get words.now index }
{
    words.get(index).copied()
}

/// What lies apart at an index, if anything does.
fn apart_at(apart: &[Held], index: usize) -> Option<&Held>
    ensures { option_copied result ≡ slice_get apart.now index }
{
    apart.get(index)
}

/// The num of a word, or of what lies apart for it at an index; none if they are no num.
pub(crate) fn num_of(word: Word, apart: &[Held], index: usize) -> Option<Num>
    ensures { result ≡ as_num (datum_in word (apart_of (slice_get apart.now index))) }
{
    match word {
        Word::Num(number) => Some(number),
        Word::Apart => match apart_at(apart, index) {
            Some(held) => held.num(),
            None => None,
        },
        _ => None,
    }
}

/// The bool of a word, or of what lies apart for it at an index; none if they are no bool.
pub(crate) fn truth_of(word: Word, apart: &[Held], index: usize) -> Option<bool>
    ensures { result ≡ as_bool (datum_in word (apart_of (slice_get apart.now index))) }
{
    match word {
        Word::Bool(truth) => Some(truth),
        Word::Apart => match apart_at(apart, index) {
            Some(held) => held.truth(),
            None => None,
        },
        _ => None,
    }
}

/// What the datum of a word, or what lies apart for it at an index, stands for; none if it is no reference parameter's.
pub(crate) fn place_of(word: Word, apart: &[Held], index: usize) -> Option<Lvalue>
    ensures { result ≡ place_in (datum_in word (apart_of (slice_get apart.now index))) }
{
    match word {
        Word::Num(_) => None,
        Word::Apart => match apart_at(apart, index) {
            Some(held) => held.place(),
            None => None,
        },
        _ => word.place(),
    }
}

/// The datum of a word, or what lies apart for it at an index.
pub(crate) fn datum_of(word: Word, apart: &[Held], index: usize) -> Held
    ensures { result ≡ datum_in word (apart_of (slice_get apart.now index)) }
{
    match word.held() {
        Some(held) => held,
        None => match apart_at(apart, index) {
            Some(held) => held.copy(),
            None => Held::of_mark(0),
        },
    }
}

/// Lets a datum lie apart at an index. Does not allocate.
pub(crate) fn put_apart(apart: &mut Vec<Held>, index: usize, datum: Held)
    requires there { index < vec_capacity apart.old }
    requires few { length apart.old.items ≤ vec_capacity apart.old }
    ensures put { (words : List AWord) → index < length words → data_in (slice_set words index Apart) apart.new.items ≡ slice_set (data_in words apart.old.items) index datum }
    ensures few { length apart.new.items ≤ vec_capacity apart.new }
    ensures capacity { vec_capacity apart.new ≡ vec_capacity apart.old }
{
    let missing = index.saturating_sub(apart.len());
    fill(apart, missing);
    if index < apart.len() {
        drop(mem::replace(&mut apart[index], datum));
    } else {
        apart.push_reserved(datum);
    }
}

/// Appends `count` zeros, which nothing reads. Does not allocate.
fn fill(apart: &mut Vec<Held>, count: usize)
    requires room { vec_len apart.old + count ≤ vec_capacity apart.old }
    ensures appended { apart.new.items ≡ apart.old.items ++ replicate count (Mark 0) }
    ensures capacity { vec_capacity apart.new ≡ vec_capacity apart.old }
{
    for _zero in 0..count {
        apart.push_reserved(Held::of_mark(0));
    }
}
