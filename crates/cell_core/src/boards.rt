ghost use Rattle.std.specs.Prelude.{◌≡◌, ◌≤◌, ◌<◌, ◌||◌, ◌&&◌, ℕ, not, nat_le, length, false, Some, IfSome, is_some, slice_index_or};
ghost use Rattle.rapid_model.specs.CellData.{CellData};
ghost use Rattle.rapid_model.specs.Limits.{holds_where_there};
ghost use Rattle.rapid_model.specs.Truths.{same_truth};
ghost use Rattle.rapid_model.specs.declared.request.Request.TheVariants as requests;
ghost use Rattle.cell_meaning.specs.Counted.{is_counted};
ghost use Rattle.cell_meaning.specs.Stored.{value_at};
ghost use Rattle.cell_core.specs.Actors.{actor_at};
ghost use Rattle.cell_core.specs.Boards.{boards_of, boards_with, elements_at, tallied};
ghost use Rattle.cell_core.specs.Reading.{all_stand, all_have_fates, can_go_on, is_passed};
ghost use Rattle.cell_core.specs.Ready.{CanAnswer, CanCount, CanFeed, CanPass, CanSet, HasPart};
ghost use Rattle.cell_core.specs.Answering.{Answers, IsAnswerOn, answer_on, made_by_others};

use crate::actor::{Actor, one_more};
use crate::change::Change;
use crate::inputs::feed;
use crate::meetings::arrive;
use crate::motion::{go, position_of};
use crate::outcome::{Outcome, done, unchanged};
use crate::starting::actors_of;
use crate::values::{read, set_signal, test_set, value_of, write};
use crate::{interrupts, outputs, zones};
use persist_store::Store;
use rapid_model::{Answer, Cell, InputRow, Path, Request, Value};
use rapid_num::Shape;
use signal_board::Signals;
use std::alloc::Global;
use std::marker::Model;
use sync_tasks::Meetings;
use trap_dispatch::Traps;
use world_zones::Zones;

/// What the history amounts to so far: the values of persistents and signals, how the tasks stand at their meetings,
/// their interrupts, the zones, what each actor's own events amount to (the tasks in script order, then the input
/// script), the number of counted events, and the number of changes. Contracts see each board as its plain data.
#[derive(Drop)]
pub(crate) struct Boards {
    store: Store,
    signals: Signals,
    meetings: Meetings,
    traps: Traps,
    zones: Zones,
    actors: Vec<Actor>,
    counted: u32,
    changes: u32,
}

impl Model for Boards {
    ghost use Rattle.cell_core.specs.Boards.{BoardData};

    ghost Value = { BoardData };

    ghost view = { λ b. record { store = b.store; signals = b.signals; meetings = b.meetings; traps = b.traps; zones = b.zones; actors = b.actors.items; counted = b.counted; changes = b.changes } };
}

impl Boards {
    /// The boards before the first event. None only if an allocation fails.
    pub(crate) fn new(alloc: Global, cell: &Cell) -> Option<Boards>
        ensures { IfSome result (λ boards. boards ≡ boards_of cell.now) }
    {
        // Its contract states the limits of cells.
        let _steps = cell.steps();
        let tasks = cell.tasks().len() as u32;
        // More meetings than that do not fit in memory.
        let meetings = u32::try_from(cell.meetings().len()).ok()?;
        Some(Boards {
            store: Store::new(alloc, cell).ok()?,
            signals: Signals::new(alloc, cell).ok()?,
            meetings: Meetings::new(alloc, tasks, meetings).ok()?,
            traps: Traps::new(alloc, tasks).ok()?,
            zones: Zones::new(alloc, cell).ok()?,
            actors: actors_of(alloc, cell.tasks().as_slice()).ok()?,
            counted: 0,
            changes: 0,
        })
    }

    /// Answers a request of an actor, and counts the two as one event. The boards have what the request needs.
    pub(crate) fn take(&mut self, cell: &Cell, actor: u32, request: &Request) -> Answer
        requires ready { CanAnswer cell.now self.old actor request.now }
        requires few { CanCount self.old actor }
        ensures answer { IsAnswerOn self.old actor request.now result }
        ensures boards { self.new ≡ boards_with cell.now self.old (record { actor = actor; request = request.now; answer = result }) }
    {
        match request {
            Request::Look => self.look(actor),
            _ => self.take_other(cell, actor, request),
        }
    }

    /// Answers a Look, which changes nothing that tasks wait for, and counts the two as one event.
    fn look(&mut self, actor: u32) -> Answer
        requires traps { actor < length self.old.traps }
        requires few { CanCount self.old actor }
        ensures answer { result ≡ answer_on self.old actor requests.Look }
        ensures boards { (cell : CellData) → self.new ≡ boards_with cell self.old (record { actor = actor; request = requests.Look; answer = result }) }
    {
        let seen = self.made_by_others(actor);
        let answer = interrupts::look(&mut self.traps, actor, seen);
        self.actors[actor as usize].count_look(&answer);
        self.counted += 1;
        answer
    }

    /// Answers a request of an actor, and counts the two as one event. The boards have what the request needs.
    fn take_other(&mut self, cell: &Cell, actor: u32, request: &Request) -> Answer
        requires ready { CanAnswer cell.now self.old actor request.now }
        requires few { CanCount self.old actor }
        ensures answer { IsAnswerOn self.old actor request.now result }
        ensures boards { self.new ≡ boards_with cell.now self.old (record { actor = actor; request = request.now; answer = result }) }
    {
        let Outcome { answer, change } = self.answer(cell, actor, request);
        self.tally(actor, request, &answer, &change);
        answer
    }

    /// Answers a request, and changes the boards as it asks.
    fn answer(&mut self, cell: &Cell, actor: u32, request: &Request) -> Outcome
        requires { CanAnswer cell.now self.old actor request.now }
        ensures { Answers cell.now self.old actor request.now result self.new }
    {
        match request {
            Request::Look => {
                let seen = self.made_by_others(actor);
                unchanged(interrupts::look(&mut self.traps, actor, seen))
            }
            Request::ReadP { pers, path } => unchanged(value_of(&self.store, *pers, path)),
            Request::WriteP { pers, path, value } => {
                done(write(&mut self.store, *pers, path, value))
            }
            Request::TestSet { pers, path } => test_set(&mut self.store, *pers, path),
            Request::ReadS { signal } => unchanged(Answer::Bit(self.signals.get(*signal))),
            Request::WriteS { signal, .. } if self.zones.tied(*signal) => unchanged(Answer::Tied),
            Request::WriteS { signal, value } => done(set_signal(
                &mut self.signals,
                *signal,
                *value,
            )),
            Request::Position => unchanged(position_of(&self.actors[actor as usize].arm)),
            Request::Setpoint { to } => {
                let arm = &self.actors[actor as usize].arm;
                go(&self.zones, &mut self.signals, actor, arm, to)
            }
            Request::Connect { old, trap } => {
                unchanged(interrupts::connect(&mut self.traps, actor, *old, *trap))
            }
            Request::Order { number, on, single } => {
                unchanged(interrupts::order(&mut self.traps, actor, *number, *on, *single))
            }
            Request::Sleep { number } => unchanged(interrupts::sleep(
                &mut self.traps,
                actor,
                *number,
            )),
            Request::Watch { number } => unchanged(interrupts::watch(
                &mut self.traps,
                actor,
                *number,
            )),
            Request::Delete { number } => unchanged(interrupts::delete(
                &mut self.traps,
                actor,
                *number,
            )),
            Request::Disable => unchanged(interrupts::disable(&mut self.traps, actor)),
            Request::Enable => unchanged(interrupts::enable(&mut self.traps, actor)),
            Request::Leave => unchanged(interrupts::leave(&mut self.traps, actor)),
            Request::ZoneSet {
                old,
                temporary,
                shape,
            } => unchanged(zones::set(&mut self.zones, actor, *old, *temporary, shape)),
            Request::ZoneTie {
                old,
                temporary,
                shape,
                signal,
                value,
            } => self.tie(actor, *old, *temporary, shape, *signal, *value),
            Request::ZoneOn { zone } => self.switch_on(actor, *zone),
            Request::ZoneOff { zone } => unchanged(zones::switch_off(
                &mut self.zones,
                actor,
                *zone,
            )),
            Request::ZoneFree { zone } => unchanged(zones::give_up(&mut self.zones, actor, *zone)),
            Request::Arrive { meeting, tasks } => arrive(
                &mut self.meetings,
                actor,
                *meeting,
                *tasks,
            ),
            Request::Input { index } => self.feed(cell, *index),
            Request::Hold { .. } | Request::Rise | Request::Say { .. } | Request::End { .. } =>
                unchanged(Answer::Ok),
        }
    }

    /// Gives the task's arm a zone that sets a signal, and sets it.
    fn tie(
        &mut self,
        actor: u32,
        old: u8,
        temporary: bool,
        shape: &Shape,
        signal: u32,
        value: bool,
    ) -> Outcome
        requires { CanSet self.old actor (requests.ZoneTie old temporary shape.now signal value) }
        ensures { (cell : CellData) → Answers cell self.old actor (requests.ZoneTie old temporary shape.now signal value) result self.new }
    {
        let answer = zones::tie(&mut self.zones, actor, old, temporary, shape, signal, value);
        let arm = &self.actors[actor as usize].arm;
        outputs::given(&mut self.signals, &self.zones, actor, arm, answer)
    }

    /// Switches a temporary zone on, which sets its signal if it has one.
    fn switch_on(&mut self, actor: u32, zone: u8) -> Outcome
        requires { CanSet self.old actor (requests.ZoneOn zone) }
        ensures { (cell : CellData) → Answers cell self.old actor (requests.ZoneOn zone) result self.new }
    {
        let answer = zones::switch_on(&mut self.zones, actor, zone);
        let arm = &self.actors[actor as usize].arm;
        outputs::switched_on(&mut self.signals, &self.zones, actor, arm, zone, answer)
    }

    /// Does a step of the input script.
    fn feed(&mut self, cell: &Cell, index: u32) -> Outcome
        requires { CanFeed cell.now self.old index }
        ensures { (actor : ℕ) → Answers cell.now self.old actor (requests.Input index) result self.new }
    {
        let row = cell.inputs().as_slice()[index as usize];
        done(feed(&mut self.signals, &row))
    }

    /// Fires the interrupts that are ordered on what an event changed, and counts the event.
    fn tally(&mut self, actor: u32, request: &Request, answer: &Answer, change: &Change)
        requires { CanCount self.old actor }
        ensures { self.new ≡ tallied self.old actor request.now answer.now change.now }
    {
        interrupts::fire(&mut self.traps, change);
        let changes = change.is_some();
        self.actors[actor as usize].count(changes, request, answer);
        self.counted = one_more(self.counted, is_counted(request));
        self.changes = one_more(self.changes, changes);
    }

    /// What an actor's own events amount to.
    pub(crate) fn actor(&self, actor: u32) -> Actor
        requires { actor < length self.now.actors }
        ensures { result ≡ actor_at self.now.actors actor }
    {
        self.actors[actor as usize]
    }

    /// The number of counted events.
    pub(crate) fn counted(&self) -> u32
        ensures { result ≡ self.now.counted }
    {
        self.counted
    }

    /// The value of a part of a persistent.
    pub(crate) fn value(&self, pers: u32, path: &Path) -> Value
        requires { HasPart self.now.store pers path.now }
        ensures { value_at (elements_at self.now.store pers) path.now ≡ Some result }
    {
        read(&self.store, pers, path)
    }

    /// Whether each of this many tasks, from 0, has ended.
    #[tactic(auto, using(crate::proofs::Looks::more_have_fates))]
    pub(crate) fn all_have_fates(&self, tasks: u32) -> bool
        requires { tasks ≤ length self.now.actors }
        ensures { result ≡ all_have_fates tasks self.now.actors }
    {
        let mut all = true;
        for task in 0..tasks {
            all = both(all, self.has_fate(task));
        }
        all
    }

    fn has_fate(&self, task: u32) -> bool
        requires { task < length self.now.actors }
        ensures { result ≡ is_some (actor_at self.now.actors task).end }
    {
        self.actor(task).end.is_some()
    }

    /// Whether others have made changes since the task's last Hold, or a trap is due.
    pub(crate) fn can_go_on(&self, task: u32) -> bool
        requires actor { task < length self.now.actors }
        requires trap { task < length self.now.traps }
        ensures { result ≡ can_go_on self.now task }
    {
        self.actor(task).seen < self.made_by_others(task) || self.traps.due(task)
    }

    /// The number of changes made by others.
    fn made_by_others(&self, actor: u32) -> u32
        requires { actor < length self.now.actors }
        ensures { result ≡ made_by_others self.now actor }
    {
        self.changes
            .saturating_sub(self.actors[actor as usize].made)
    }

    /// Whether each of this many tasks, from 0, has ended, or is held and cannot go on.
    #[tactic(auto, using(crate::proofs::Looks::stand_more))]
    pub(crate) fn all_stand(&self, tasks: u32) -> bool
        requires actors { tasks ≤ length self.now.actors }
        requires traps { tasks ≤ length self.now.traps }
        ensures { result ≡ all_stand tasks self.now }
    {
        let mut all = true;
        for task in 0..tasks {
            all = both(all, self.stands(task));
        }
        all
    }

    /// Whether the task has ended, or is held and cannot go on.
    fn stands(&self, task: u32) -> bool
        requires actor { task < length self.now.actors }
        requires trap { task < length self.now.traps }
        ensures { result ≡ (is_some (actor_at self.now.actors task).end || ((actor_at self.now.actors task).held && not (can_go_on self.now task))) }
    {
        let own = self.actor(task);
        own.end.is_some() || own.held && !self.can_go_on(task)
    }

    /// Whether every condition in the gate of a step of the input script holds.
    pub(crate) fn is_passed(&self, row: &InputRow) -> bool
        requires { CanPass self.now row.now }
        ensures { result ≡ is_passed self.now row.now }
    {
        self.has_value(row.when) && self.was_given(row.given) && self.has_counted(row.after)
    }

    fn has_value(&self, when: Option<(u32, bool)>) -> bool
        requires { IfSome when (λ w. w.0 < length self.now.signals) }
        ensures { result ≡ holds_where_there (λ w. same_truth (slice_index_or self.now.signals w.0 false) w.1) when }
    {
        match when {
            Some((signal, value)) => self.signals.get(signal) == value,
            None => true,
        }
    }

    fn was_given(&self, given: Option<(u32, u32)>) -> bool
        requires { IfSome given (λ g. g.0 < length self.now.actors) }
        ensures { result ≡ holds_where_there (λ g. nat_le g.1 (actor_at self.now.actors g.0).given) given }
    {
        match given {
            Some((task, count)) => count <= self.actors[task as usize].given,
            None => true,
        }
    }

    fn has_counted(&self, after: Option<u32>) -> bool
        ensures { result ≡ holds_where_there (λ count. nat_le count self.now.counted) after }
    {
        match after {
            Some(count) => count <= self.counted,
            None => true,
        }
    }
}

fn both(first: bool, second: bool) -> bool
    ensures { result ≡ (first && second) }
{
    first && second
}

/// Whether the request is counted.
pub(crate) fn is_counted(request: &Request) -> bool
    ensures { result ≡ is_counted request.now }
{
    match request {
        Request::Input { .. } | Request::End { .. } => false,
        _ => true,
    }
}
