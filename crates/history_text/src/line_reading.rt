//! Reading lines.

ghost use Rattle.std.specs.Prelude.{◌≡◌, ◌≤◌, length, position};
ghost use Rattle.std.specs.Option.{option_map};
ghost use Rattle.history_text.specs.Named.{view_names};
ghost use Rattle.history_text.specs.Reading.{place_of};
ghost use Rattle.history_text.specs.EventReading.{actor_at, actor_of, event_at, fate_line_at, is_space, task_named, within_u32};

use crate::answer_reading::answer_at;
use crate::fate_reading::fate_at;
use crate::names::Names;
use crate::request_reading::request_at;
use crate::words::{after_word, is_same};
use rapid_model::{Event, Fate, TaskRow};

/// An event by its line.
#[tactic(auto, unfolding(crate::specs::EventReading::event_at))]
pub(crate) fn event_at(names: &Names, line: &[u8]) -> Option<Event>
    ensures { result ≡ event_at (view_names names.now) line.now }
{
    let rest = after_word(line, b"H ")?;
    let (actor, rest) = actor_at(names.tasks, rest)?;
    let rest = after_word(rest, b" ")?;
    let Some((request, rest)) = request_at(names, rest) else {
        return None;
    };
    let rest = after_word(rest, b" > ")?;
    let Some((answer, _rest)) = answer_at(names, &request, rest) else {
        return None;
    };
    Some(Event {
        actor,
        request,
        answer,
    })
}

/// A fate by the line of a task of this name.
#[tactic(auto, unfolding(crate::specs::EventReading::fate_line_at))]
pub(crate) fn fate_line_at(name: &[u8], line: &[u8]) -> Option<Fate>
    ensures { result ≡ fate_line_at name.now line.now }
{
    let rest = after_word(line, b"E ")?;
    let rest = after_word(rest, name)?;
    let rest = after_word(rest, b" ")?;
    let (fate, _rest) = fate_at(rest)?;
    Some(fate)
}

/// An actor, up to a space.
#[tactic(auto, unfolding(crate::specs::EventReading::actor_at))]
fn actor_at<'a>(tasks: &[TaskRow], text: &'a [u8]) -> Option<(u32, &'a [u8])>
    ensures { option_map (λ x. (x.0, x.1.now)) result ≡ actor_at tasks.now text.now }
{
    let (name, rest) = text.split_at(name_end(text));
    let actor = actor_of(tasks, name)?;
    Some((actor, rest))
}

/// Where a name ends.
#[tactic(auto, using(crate::proofs::Positions::place_by_position, crate::proofs::Positions::place_within))]
fn name_end(text: &[u8]) -> usize
    ensures end { result ≡ place_of is_space text.now }
    ensures within { result ≤ length text.now }
{
    first_space(text).unwrap_or(text.len())
}

fn first_space(text: &[u8]) -> Option<usize>
    ensures { result ≡ position is_space text.now }
{
    text.iter().position(|byte| *byte == b' ')
}

/// The number of an actor: `-` is the input script, whose number follows those of the tasks.
#[tactic(auto, unfolding(crate::specs::EventReading::actor_of))]
fn actor_of(tasks: &[TaskRow], name: &[u8]) -> Option<u32>
    ensures { result ≡ actor_of tasks.now name.now }
{
    if is_same(name, b"-") {
        within_u32(tasks.len())
    } else {
        within_u32(task_named(tasks, name)?)
    }
}

/// A number of 32 bits.
fn within_u32(number: usize) -> Option<u32>
    ensures { result ≡ within_u32 number }
{
    if number < 4_294_967_296 {
        Some(number as u32)
    } else {
        None
    }
}

/// The number of a task that has this name.
fn task_named(tasks: &[TaskRow], name: &[u8]) -> Option<usize>
    ensures { result ≡ task_named tasks.now name.now }
{
    tasks.iter().position(|row| is_same(name, row.name.bytes()))
}
