ghost use Rattle.std.specs.Prelude.{◌≡◌, ◌==◌, ◌<◌, ◌≤◌, [], length, slice_get, Some, IfOk, IsTrue};
ghost use Rattle.std.specs.Vec.{vec_capacity};
ghost use Rattle.rapid_model.specs.declared.event.Event.{Event};
ghost use Rattle.history_pages.specs.Packing.{event_of};
ghost use Rattle.history_pages.specs.Pages.{given_in, with_event};
ghost use Rattle.history_pages.specs.Replies.{is_reply_to};
ghost use Rattle.history_pages.specs.Requests.{is_lined};

use crate::answer_form::AnswerForm;
use crate::copying::copy_event;
use crate::head::Head;
use crate::paged::Paged;
use crate::payload::put_words;
use crate::request_form::RequestForm;
use crate::words::Words;
use rapid_model::{Answer, Event, Request};
use rapid_num::{Joints, Memory};
use std::alloc::Global;
use std::marker::Model;

/// The heads of a history, in pages of 96 KiB.
type Heads = Paged<Head, 4_096>;

/// The greatest number of words of an event: those of a shape.
const MOST_WORDS: u32 = 24;

/// The events of a run, oldest first, in pages. Contracts see the events, and how many there is room for. An event
/// takes 24 bytes, and 8 for each num of its values, positions and shapes and for every eight characters of its texts:
/// at most 216.
#[derive(Debug, Drop)]
pub struct Pages {
    heads: Heads,
    words: Words,
    room: u32,
}

impl Model for Pages {
    ghost use Rattle.history_pages.specs.Pages.{IsKept, PagesData, events_in};

    ghost Value = { PagesData };

    ghost view = { λ p. record { events = events_in p.heads.items p.words.items; room = p.room } };

    ghost invariant = { λ p. IsKept p.heads p.words p.room };
}

impl Pages {
    /// No events, and room for that many, whatever words they have. Fails only if an allocation fails, or that many
    /// events can have 2^32 words or more.
    pub fn new(alloc: Global, events: u32) -> Result<Pages, Memory>
        ensures { IfOk result (λ pages. pages ≡ record { events = []; room = events }) }
    {
        let Some(count) = events.checked_mul(MOST_WORDS) else {
            return Err(Memory);
        };
        let Ok(heads) = Paged::new(alloc, events as usize) else {
            return Err(Memory);
        };
        let Ok(words) = Paged::new(alloc, count as usize) else {
            return Err(Memory);
        };
        Ok(Pages {
            heads,
            words,
            room: events,
        })
    }

    /// How many events there are.
    pub fn len(&self) -> u32
        ensures same { result ≡ length self.now.events }
        ensures room { result ≤ self.now.room }
    {
        self.heads.len() as u32
    }

    /// Whether there is no event.
    pub fn is_empty(&self) -> bool
        ensures { result ≡ (length self.now.events == 0) }
    {
        self.len() == 0
    }

    /// Adds an event, for which there is room, with an answer of a form that its request has. Allocates nothing.
    pub fn push(&mut self, event: &Event)
        requires room { length self.old.events < self.old.room }
        requires reply { IsTrue (is_reply_to event.now.request event.now.answer) }
        ensures { self.new ≡ with_event self.old event.now }
    {
        self.append(event.actor, &event.request, &event.answer);
    }

    /// The same for an actor's request and its answer, packed in place.
    pub fn append(&mut self, actor: u32, request: &Request, answer: &Answer)
        requires room { length self.old.events < self.old.room }
        requires reply { IsTrue (is_reply_to request.now answer.now) }
        ensures { self.new ≡ with_event self.old (event_of actor request.now answer.now) }
    {
        let from = self.words.len() as u32;
        put_words(&mut self.words, request, answer);
        self.heads.push(Head {
            actor,
            from,
            request: RequestForm::of(request, answer),
            answer: AnswerForm::of(answer),
        });
    }

    /// The actor and the joints of event `k`, from 0, if it is a setpoint that was given. Makes no event.
    pub fn given(&self, k: u32) -> Option<(u32, Joints)>
        requires { k < length self.now.events }
        ensures { (event : Event) → slice_get self.now.events k ≡ Some event → result ≡ given_in event }
    {
        self.heads.at(k as usize).given(&self.words)
    }

    /// Event `k`, from 0.
    pub fn get(&self, k: u32) -> Event
        requires { k < length self.now.events }
        ensures { slice_get self.now.events k ≡ Some result }
    {
        self.heads.at(k as usize).spelled(&self.words)
    }

    /// Copies all events, oldest first, into the room of an empty list. Allocates nothing.
    pub fn copy_to(&self, events: &mut Vec<Event>)
        requires none { events.old.items ≡ [] }
        requires room { length self.now.events ≤ vec_capacity events.old }
        ensures { events.new.items ≡ self.now.events }
    {
        for k in 0..self.len() {
            copy_event(self.heads.at(k as usize), &self.words, events);
        }
    }

    /// Whether event `k`, from 0, asks for a setpoint or a text to the operator. Reads its head alone.
    pub fn is_lined(&self, k: u32) -> bool
        requires { k < length self.now.events }
        ensures { (event : Event) → slice_get self.now.events k ≡ Some event → result ≡ is_lined event.request }
    {
        match self.heads.get(k as usize) {
            Some(head) => head.request.is_lined(),
            None => false,
        }
    }
}
