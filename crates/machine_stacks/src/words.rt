ghost use Rattle.std.specs.Prelude.{◌≡◌, ◌+◌, ◌<◌, ◌≤◌, ◌++◌, [], ◌∷◌, Some, IfOk, IsSome, length, replicate, take, drop, slice_get, slice_set};
ghost use Rattle.std.specs.Option.{option_and_then};
ghost use Rattle.rapid_model.specs.declared.value.Value.TheVariants as values;
ghost use Rattle.typed_trees.specs.declared.datum.Datum.TheVariants.{Mark, Place, Plain};
ghost use Rattle.rapid_meaning.specs.Places.{place_in};
ghost use Rattle.machine_stacks.specs.Forms.{as_bool, as_num};
ghost use Rattle.machine_stacks.specs.Words.{datum_in, in_word};

use crate::apart::{datum_of, num_of, place_of, put_apart, truth_of, word_at};
use crate::held::Held;
use crate::word::Word;
use rapid_model::Value;
use rapid_num::Num;
use std::alloc::{AllocError, Global};
use std::marker::Model;
use typed_trees::{Datum, Lvalue};

/// A row of data, each in a word of 16 bytes or, if it needs more, apart at the same index. Contracts see the data and
/// the room for them.
#[derive(Debug, Drop)]
pub(crate) struct Words {
    words: Vec<Word>,
    apart: Vec<Held>,
}

impl Model for Words {
    ghost use Rattle.std.specs.Prelude.{◌≤◌, length};
    ghost use Rattle.std.specs.Vec.{vec_capacity};
    ghost use Rattle.machine_stacks.specs.Words.{DataRow, HasRoom, data_in};

    ghost Value = { DataRow };

    ghost view = { λ w. record { items = data_in w.words.items w.apart.items; room = vec_capacity w.words } };

    // There is as much room for what lies apart as for words.
    ghost invariant = { λ w. HasRoom (length w.words.items) (vec_capacity w.words) (length w.apart.items) (vec_capacity w.apart) };
}

impl Words {
    /// No data, with room for `room`. Fails only if an allocation fails.
    pub(crate) fn new(alloc: Global, room: usize) -> Result<Words, AllocError>
        ensures { IfOk result (λ w. w ≡ record { items = []; room = room }) }
    {
        let words = Vec::with_capacity(alloc, room)?;
        let apart = Vec::with_capacity(alloc, room)?;
        Ok(Words { words, apart })
    }

    /// The number of data.
    pub(crate) fn len(&self) -> usize
        ensures { result ≡ length self.now.items }
    {
        self.words.len()
    }

    /// The num at an index; none if there is none.
    pub(crate) fn num(&self, index: usize) -> Option<Num>
        ensures { result ≡ option_and_then as_num (slice_get self.now.items index) }
    {
        match word_at(&self.words, index) {
            Some(word) => num_of(word, &self.apart, index),
            None => None,
        }
    }

    /// The bool at an index; none if there is none.
    pub(crate) fn truth(&self, index: usize) -> Option<bool>
        ensures { result ≡ option_and_then as_bool (slice_get self.now.items index) }
    {
        match word_at(&self.words, index) {
            Some(word) => truth_of(word, &self.apart, index),
            None => None,
        }
    }

    /// What the datum at an index stands for; none if there is no such datum of a reference parameter.
    pub(crate) fn place(&self, index: usize) -> Option<Lvalue>
        ensures { result ≡ option_and_then place_in (slice_get self.now.items index) }
    {
        match word_at(&self.words, index) {
            Some(word) => place_of(word, &self.apart, index),
            None => None,
        }
    }

    /// The datum at an index, if there is one. Does not allocate.
    pub(crate) fn datum(&self, index: usize) -> Option<Held>
        ensures { result ≡ slice_get self.now.items index }
    {
        match word_at(&self.words, index) {
            Some(word) => Some(datum_of(word, &self.apart, index)),
            None => None,
        }
    }

    /// Appends a datum. Does not allocate.
    pub(crate) fn push(&mut self, datum: Held)
        requires { length self.old.items < self.old.room }
        ensures { self.new ≡ record self.old { items = self.old.items ++ datum ∷ [] } }
    {
        match datum.word() {
            Some(word) => self.push_word(word),
            None => self.push_apart(datum),
        }
    }

    /// Appends a value. Does not allocate.
    pub(crate) fn push_value(&mut self, value: Value)
        requires { length self.old.items < self.old.room }
        ensures { self.new ≡ record self.old { items = self.old.items ++ Plain value ∷ [] } }
    {
        match value {
            Value::Num(number) => self.push_word(Word::Num(number)),
            Value::Bool(truth) => self.push_word(Word::Bool(truth)),
            other => self.push_apart(Held::of_value(other)),
        }
    }

    /// Appends what a reference parameter stands for. Does not allocate.
    pub(crate) fn push_place(&mut self, place: Lvalue)
        requires { length self.old.items < self.old.room }
        ensures { self.new ≡ record self.old { items = self.old.items ++ Place place ∷ [] } }
    {
        self.push_word(Word::of_place(place));
    }

    /// Appends `count` copies of a datum. Does not allocate.
    pub(crate) fn push_alike(&mut self, datum: &Datum, count: usize)
        requires { length self.old.items + count ≤ self.old.room }
        ensures { self.new ≡ record self.old { items = self.old.items ++ replicate count datum.now } }
    {
        let held = Held::of(datum);
        match held.word() {
            Some(word) => self.push_words(&word, count),
            None => self.push_copies(&held, count),
        }
    }

    /// Appends a copy of a datum of another row. Does not allocate.
    pub(crate) fn push_from(&mut self, row: &Words, index: usize)
        requires there { index < length row.now.items }
        requires room { length self.old.items < self.old.room }
        ensures { self.new ≡ record self.old { items = self.old.items ++ take 1 (drop index row.now.items) } }
    {
        match row.datum(index) {
            Some(datum) => self.push(datum),
            None => unreachable!(),
        }
    }

    /// Replaces the datum at an index. Does not allocate.
    pub(crate) fn set(&mut self, index: usize, datum: Held)
        requires { index < length self.old.items }
        ensures { self.new ≡ record self.old { items = slice_set self.old.items index datum } }
    {
        match datum.word() {
            Some(word) => self.set_word(index, word),
            None => self.set_apart(index, datum),
        }
    }

    /// Replaces the datum at an index by a num.
    pub(crate) fn set_num(&mut self, index: usize, number: Num)
        requires { index < length self.old.items }
        ensures { self.new ≡ record self.old { items = slice_set self.old.items index (Plain (values.Num number)) } }
    {
        self.set_word(index, Word::Num(number));
    }

    /// Replaces the datum at an index by a value. Does not allocate.
    pub(crate) fn set_value(&mut self, index: usize, value: Value)
        requires { index < length self.old.items }
        ensures { self.new ≡ record self.old { items = slice_set self.old.items index (Plain value) } }
    {
        match value {
            Value::Num(number) => self.set_word(index, Word::Num(number)),
            Value::Bool(truth) => self.set_word(index, Word::Bool(truth)),
            other => self.set_apart(index, Held::of_value(other)),
        }
    }

    /// Drops the data from an index on.
    pub(crate) fn truncate(&mut self, len: usize)
        ensures { self.new ≡ record self.old { items = take len self.old.items } }
    {
        self.words.truncate(len);
    }

    /// Appends the datum of a word that has one.
    fn push_word(&mut self, word: Word)
        requires room { length self.old.items < self.old.room }
        requires here { IsSome (in_word word) }
        ensures { self.new ≡ record self.old { items = self.old.items ++ datum_in word (Mark 0) ∷ [] } }
    {
        self.words.push_reserved(word);
    }

    /// Appends `count` copies of the datum of a word that has one.
    fn push_words(&mut self, word: &Word, count: usize)
        requires room { length self.old.items + count ≤ self.old.room }
        requires here { IsSome (in_word word.now) }
        ensures { self.new ≡ record self.old { items = self.old.items ++ replicate count (datum_in word.now (Mark 0)) } }
    {
        for _copy in 0..count {
            self.push_word(*word);
        }
    }

    /// Appends `count` copies of a datum.
    fn push_copies(&mut self, datum: &Held, count: usize)
        requires { length self.old.items + count ≤ self.old.room }
        ensures { self.new ≡ record self.old { items = self.old.items ++ replicate count datum.now } }
    {
        for _copy in 0..count {
            self.push_apart(datum.copy());
        }
    }

    /// Appends a datum, which lies apart.
    fn push_apart(&mut self, datum: Held)
        requires { length self.old.items < self.old.room }
        ensures { self.new ≡ record self.old { items = self.old.items ++ datum ∷ [] } }
    {
        let index = self.words.len();
        self.push_word(Word::Mark(0));
        self.set_apart(index, datum);
    }

    /// Replaces the datum at an index by that of a word that has one.
    fn set_word(&mut self, index: usize, word: Word)
        requires there { index < length self.old.items }
        requires here { IsSome (in_word word) }
        ensures { self.new ≡ record self.old { items = slice_set self.old.items index (datum_in word (Mark 0)) } }
    {
        self.words[index] = word;
    }

    /// Replaces the datum at an index by one that lies apart.
    fn set_apart(&mut self, index: usize, datum: Held)
        requires { index < length self.old.items }
        ensures { self.new ≡ record self.old { items = slice_set self.old.items index datum } }
    {
        put_apart(&mut self.apart, index, datum);
        self.words[index] = Word::Apart;
    }
}
