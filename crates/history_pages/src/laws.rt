//! The law of the packing.

ghost use Rattle.std.specs.Prelude.{◌≡◌, ℕ, ◌++◌, true, length, ℤ, List, Some};
ghost use Rattle.rapid_model.specs.declared.answer.Answer.{Answer};
ghost use Rattle.rapid_model.specs.declared.request.Request.{Request};
ghost use Rattle.history_pages.specs.Packing.{event_in, event_of, head_of, is_proper, words_of};
ghost use Rattle.history_pages.specs.Replies.{is_reply_to};

/// A law: an event is read back from its head and its words, whatever words come before and after.
pub fn events_come_back()
    ensures { (actor : ℕ) (request : Request) (answer : Answer) (before after : List ℤ) → is_reply_to request answer ≡ true → is_proper request answer ≡ true → event_in (before ++ words_of request answer ++ after) (head_of (length before) (event_of actor request answer)) ≡ Some (event_of actor request answer) }
{}
