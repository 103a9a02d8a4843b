ghost use Rattle.std.specs.Prelude.{◌≡◌, ◌<◌, true, length, drop};
ghost use Rattle.history_pages.specs.Paged.{with_items};
ghost use Rattle.history_pages.specs.Values.{is_proper_tail, tail_words};

use crate::words::{Words, num_from, put_num};
use rapid_model::Tail;

/// Everything in the tail of a text except its word, which a num has. 2 bytes.
#[derive(Clone, Copy, Debug)]
pub(crate) enum TailForm {
    None,
    Num,
    Bool(bool),
}

impl TailForm {
    ghost use Rattle.history_pages.specs.Values.{tail_count, tail_form, tail_in};

    pub(crate) fn of(tail: &Tail) -> TailForm
        ensures { result ≡ tail_form tail.now }
    {
        match tail {
            Tail::None => TailForm::None,
            Tail::Num(_) => TailForm::Num,
            Tail::Bool(truth) => TailForm::Bool(*truth),
        }
    }

    /// How many words the tail has.
    pub(crate) fn count(self) -> usize
        ensures { result ≡ tail_count self }
    {
        match self {
            TailForm::Num => 1,
            _ => 0,
        }
    }

    /// The tail of this form whose word, if it has one, is at an index; `None` if that is not a num.
    pub(crate) fn tail(self, words: &Words, from: usize) -> Option<Tail>
        ensures { result ≡ tail_in self (drop from words.now.items) }
    {
        match self {
            TailForm::None => Some(Tail::None),
            TailForm::Num => Some(Tail::Num(num_from(words, from)?)),
            TailForm::Bool(truth) => Some(Tail::Bool(truth)),
        }
    }
}

/// The word of a tail, if it has one.
pub(crate) fn put_tail(words: &mut Words, tail: &Tail)
    requires { length words.old.items < words.old.room }
    ensures pushed { words.new ≡ with_items words.old (tail_words tail.now) }
    ensures tail { is_proper_tail tail.now ≡ true }
{
    if let Tail::Num(number) = tail {
        put_num(words, *number);
    }
}
