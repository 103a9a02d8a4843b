//! The words of an event.

ghost use Rattle.std.specs.Prelude.{◌≡◌, ◌+◌, ◌≤◌, true, length};
ghost use Rattle.history_pages.specs.Packing.{is_proper, words_of};
ghost use Rattle.history_pages.specs.Paged.{with_items};
ghost use Rattle.history_pages.specs.Requests.{is_proper_request, request_words};
ghost use Rattle.history_pages.specs.Requests.{said_words};
ghost use Rattle.history_pages.specs.Values.{is_proper_tail};
ghost use Rattle.history_pages.specs.Words.{is_text};

use crate::tail_form::put_tail;
use crate::value_form::put_value;
use crate::words::{Words, put_nums, put_shape, put_text};
use rapid_model::{Answer, Request, Tail, Text};

/// The words of an event: of its answer if that is a value or a position, otherwise of its request.
pub(crate) fn put_words(words: &mut Words, request: &Request, answer: &Answer)
    requires { length words.old.items + 24 ≤ words.old.room }
    ensures pushed { words.new ≡ with_items words.old (words_of request.now answer.now) }
    ensures proper { is_proper request.now answer.now ≡ true }
{
    match answer {
        Answer::Val(value) => put_value(words, value),
        Answer::At(position) => put_nums(words, &position.axis),
        _ => put_request(words, request),
    }
}

/// The words of a request.
fn put_request(words: &mut Words, request: &Request)
    requires { length words.old.items + 24 ≤ words.old.room }
    ensures pushed { words.new ≡ with_items words.old (request_words request.now) }
    ensures proper { is_proper_request request.now ≡ true }
{
    match request {
        Request::WriteP { value, .. } => put_value(words, value),
        Request::Setpoint { to } => put_nums(words, &to.axis),
        Request::ZoneSet { shape, .. } => put_shape(words, shape),
        Request::ZoneTie { shape, .. } => put_shape(words, shape),
        Request::Say { text, tail } => put_said(words, text, tail),
        _ => {}
    }
}

/// The words of a text for the operator: its tail's, then its own.
fn put_said(words: &mut Words, text: &Text, tail: &Tail)
    requires { length words.old.items + 11 ≤ words.old.room }
    ensures pushed { words.new ≡ with_items words.old (said_words text.now tail.now) }
    ensures text { is_text text.now ≡ true }
    ensures tail { is_proper_tail tail.now ≡ true }
{
    put_tail(words, tail);
    put_text(words, text);
}
