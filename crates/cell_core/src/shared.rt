ghost use Rattle.std.specs.Prelude.{◌≡◌, ◌≤◌, ◌<◌, ◌+◌, ◌++◌, ◌&&◌, false, not, [], ◌∷◌, length, nat_le, IfOk, IfErr, IsTrue, Some, slice_get};
ghost use Rattle.rapid_model.specs.Fits.{fits_request, fitting_in};
ghost use Rattle.rapid_model.specs.Own.{has_ended, is_held, part_of};
ghost use Rattle.rapid_model.specs.Requests.{of_pers};
ghost use Rattle.rapid_model.specs.Paths.{has_path};
ghost use Rattle.rapid_model.specs.declared.event.Event.{Event};
ghost use Rattle.history_pages.specs.Pages.{given_in};
ghost use Rattle.history_pages.specs.Requests.{is_lined};
ghost use Rattle.cell_meaning.specs.Answers.{IsAnswer, is_enabled};
ghost use Rattle.cell_meaning.specs.Counted.{can_be_served};
ghost use Rattle.cell_meaning.specs.Fates.{all_ended, fate_after, fates_after, is_spent};
ghost use Rattle.cell_meaning.specs.Inputs.{inputs_done, is_open};
ghost use Rattle.cell_meaning.specs.MayAsk.{may_ask};
ghost use Rattle.cell_meaning.specs.Rising.{can_rise};
ghost use Rattle.cell_meaning.specs.Stalled.{all_rest, is_stalled};
ghost use Rattle.cell_meaning.specs.Stored.{persistent_after, value_at};
ghost use Rattle.cell_core.specs.Serving.{IfAnswered, Serves, event_of, history_with};
ghost use Rattle.cell_core.specs.Soundness.{IsSound};

use crate::boards::{Boards, is_counted};
use crate::fits::{allows, feeds, goes_with};
use crate::report::{reserve, standing, tell};
use crate::served::Served;
use crate::starting::starts_full;
use history_pages::Pages;
use rapid_limits::MOST_TASKS;
use rapid_model::{Answer, Cell, Event, Fate, InputRow, Path, Request, Value};
use rapid_num::Joints;
use std::alloc::Global;
use std::marker::Model;

/// The cell that the tasks and the input script share, and the history of their requests. Contracts see these two.
/// Boards keep what the history amounts to so far, so no call costs more as the history grows.
#[derive(Drop)]
pub struct Core {
    cell: Cell,
    steps: u32,
    tasks: u32,
    pages: Pages,
    boards: Boards,
    report: Vec<Event>,
    fates: Vec<Fate>,
}

impl Model for Core {
    ghost use Rattle.std.specs.Prelude.{◌≡◌, [], length, vec_capacity};
    ghost use Rattle.cell_core.specs.CoreData.{CoreData};
    ghost use Rattle.cell_core.specs.Keeping.{Keeps, HasRoom};

    ghost Value = { CoreData };

    ghost view = { λ c. record { cell = c.cell; history = c.pages.events } };

    ghost invariant = { λ c. Keeps c.cell c.pages.events c.boards c.steps × HasRoom c.cell c.pages.room (vec_capacity c.report) (vec_capacity c.fates) × (c.report.items ≡ []) × (c.fates.items ≡ []) × (c.tasks ≡ length c.cell.tasks) };
}

impl Core {
    /// A core with an empty history, and with room for all events of a run and for its report. Fails only if an
    /// allocation fails, and then returns the cell.
    pub fn new(alloc: Global, cell: Cell) -> Result<Core, Cell>
        ensures ok { IfOk result (λ core. core ≡ record { cell = cell; history = [] }) }
        ensures err { IfErr result (λ back. back ≡ cell) }
    {
        let steps = cell.steps();
        let tasks = cell.tasks().len() as u32;
        starts_full(&cell);
        let Some(boards) = Boards::new(alloc, &cell) else {
            return Err(cell);
        };
        let room = steps + tasks + cell.inputs().len() as u32;
        let Ok(pages) = Pages::new(alloc, room) else {
            return Err(cell);
        };
        let Some((report, fates)) = reserve(alloc, room, tasks) else {
            return Err(cell);
        };
        Ok(Core {
            cell,
            steps,
            tasks,
            pages,
            boards,
            report,
            fates,
        })
    }

    /// Answers a request of an actor: a task, by its number from 0 in script order, or the input script, which has the
    /// next number. The answer is the cell's after the history (`IsAnswer` of cell_meaning); the request and its answer
    /// become one more event. Returns Spent exactly if the request would be counted and no steps are left; otherwise
    /// NotYet exactly if it is a Rise or an Input that is not enabled. Neither changes anything.
    pub fn serve(&mut self, actor: u32, request: &Request) -> Served
        requires { IsTrue (may_ask self.old.cell actor (part_of actor self.old.history) request.now) }
        ensures cell { self.new.cell ≡ self.old.cell }
        ensures served { Serves self.old.cell self.old.history actor request.now result }
        ensures history { self.new.history ≡ history_with self.old.history actor request.now result }
        ensures fits { IfAnswered result (λ answer. IsTrue (fits_request (fitting_in self.old.cell actor (part_of actor self.old.history)) request.now answer)) }
    {
        if !self.can_be_served(request) {
            return Served::Spent;
        }
        if !self.is_enabled(actor, request) {
            return Served::NotYet;
        }
        Served::Answered(self.take(actor, request))
    }

    /// Whether the request is uncounted, or steps are left.
    fn can_be_served(&self, request: &Request) -> bool
        ensures { result ≡ can_be_served self.now.cell self.now.history request.now }
    {
        let counted = self.boards.counted();
        !is_counted(request) || counted < self.steps
    }

    /// Whether the request can be answered now.
    fn is_enabled(&self, actor: u32, request: &Request) -> bool
        requires { IsTrue (may_ask self.now.cell actor (part_of actor self.now.history) request.now) }
        ensures { result ≡ is_enabled self.now.cell self.now.history actor request.now }
    {
        match request {
            Request::Rise => self.can_rise(actor),
            Request::Input { .. } => self.can_feed(),
            _ => true,
        }
    }

    /// Answers a request that can be served and is enabled, as one more event.
    fn take(&mut self, actor: u32, request: &Request) -> Answer
        requires asked { IsTrue (may_ask self.old.cell actor (part_of actor self.old.history) request.now) }
        requires served { IsTrue (can_be_served self.old.cell self.old.history request.now) }
        requires enabled { IsTrue (is_enabled self.old.cell self.old.history actor request.now) }
        ensures cell { self.new.cell ≡ self.old.cell }
        ensures answered { IsAnswer self.old.cell self.old.history actor request.now result }
        ensures history { self.new.history ≡ self.old.history ++ event_of actor request.now result ∷ [] }
        ensures fits { IsTrue (fits_request (fitting_in self.old.cell actor (part_of actor self.old.history)) request.now result) }
    {
        let answer = self.boards.take(&self.cell, actor, request);
        self.pages.append(actor, request, &answer);
        answer
    }

    /// Whether the actor may ask this now. The input script may ask for its next step only. A task that has not ended
    /// may ask whatever suits the cell and its own state (held, in a trap, with or without an arm), except an Input. No
    /// crate here calls it; a caller of `serve` that cannot know what its actor may ask tests with it.
    pub fn fits(&self, actor: u32, request: &Request) -> bool
        ensures { result ≡ may_ask self.now.cell actor (part_of actor self.now.history) request.now }
    {
        match self.cell.tasks().as_slice().get(actor as usize) {
            Some(row) => {
                let own = self.boards.actor(actor);
                let trapped = own.begun != own.left;
                own.end.is_none()
                    && goes_with(own.held, request)
                    && allows(&self.cell, row, trapped, request)
            }
            None => actor == self.tasks
                && feeds(&self.cell, self.boards.actor(self.tasks).events, request),
        }
    }

    /// Whether a held task can go on: others have made more changes than its last Hold had seen, or a trap is due.
    pub fn can_rise(&self, task: u32) -> bool
        requires { task < length self.now.cell.tasks }
        ensures { result ≡ can_rise self.now.cell self.now.history task }
    {
        self.boards.can_go_on(task)
    }

    /// Whether the next step of the input script is open: the step exists, its gate holds, a task has not ended, and
    /// steps of the run are left (docs/CELL_SCRIPT.md, keys of an input).
    pub fn can_feed(&self) -> bool
        ensures { result ≡ is_open self.now.cell self.now.history (inputs_done self.now.cell self.now.history) }
    {
        let done = self.inputs_done();
        match self.cell.inputs().as_slice().get(done as usize) {
            Some(row) => self.lets_pass(row),
            None => false,
        }
    }

    /// How many steps of the input script are done.
    pub fn inputs_done(&self) -> u32
        ensures { result ≡ inputs_done self.now.cell self.now.history }
    {
        self.boards.actor(self.tasks).events
    }

    /// Whether every step of the input script is done.
    pub fn all_inputs_done(&self) -> bool
        ensures { result ≡ nat_le (length self.now.cell.inputs) (inputs_done self.now.cell self.now.history) }
    {
        let done = self.inputs_done();
        self.cell.inputs().as_slice().len() <= done as usize
    }

    /// Whether the next step of the input script, which exists, is open: its gate holds, a task has not ended, and
    /// steps of the run are left.
    fn lets_pass(&self, row: &InputRow) -> bool
        requires { slice_get self.now.cell.inputs (inputs_done self.now.cell self.now.history) ≡ Some row.now }
        ensures { result ≡ is_open self.now.cell self.now.history (inputs_done self.now.cell self.now.history) }
    {
        let passed = self.boards.is_passed(row);
        let over = self.all_ended();
        let counted = self.boards.counted();
        all_so(passed, over, counted < self.steps)
    }

    /// Whether the task's last event is a Hold. A task that has ended asks no more, so it is not held.
    pub fn held(&self, task: u32) -> bool
        requires { task < length self.now.cell.tasks }
        ensures same { result ≡ is_held (part_of task self.now.history) }
        ensures going { IsTrue result → has_ended (part_of task self.now.history) ≡ false }
    {
        self.boards.actor(task).held
    }

    /// Whether the task has ended.
    pub fn ended(&self, task: u32) -> bool
        requires { task < length self.now.cell.tasks }
        ensures { result ≡ has_ended (part_of task self.now.history) }
    {
        self.boards.actor(task).end.is_some()
    }

    /// Whether every task has ended.
    pub fn all_ended(&self) -> bool
        ensures { result ≡ all_ended (length self.now.cell.tasks) self.now.history }
    {
        self.boards.all_have_fates(self.tasks)
    }

    /// Whether some task has not ended and no steps are left.
    pub fn spent(&self) -> bool
        ensures { result ≡ is_spent self.now.cell self.now.history }
    {
        !self.all_ended() && self.steps <= self.boards.counted()
    }

    /// Whether the tasks wait for one another: steps are left, some task has not ended, each such task is held and
    /// cannot go on, and no step of the input script is open.
    pub fn stalled(&self) -> bool
        ensures { result ≡ is_stalled self.now.cell self.now.history }
    {
        !self.spent() && !self.all_ended() && self.all_rest() && !self.can_feed()
    }

    /// Whether each task has ended, or is held and cannot go on.
    fn all_rest(&self) -> bool
        ensures { result ≡ all_rest self.now.cell (length self.now.cell.tasks) self.now.history }
    {
        self.boards.all_stand(self.tasks)
    }

    /// How a task stands: with the fate that it ended with, otherwise cut if the steps are spent, otherwise held.
    pub fn fate(&self, task: u32) -> Fate
        requires { task < length self.now.cell.tasks }
        ensures { result ≡ fate_after self.now.cell self.now.history task }
    {
        standing(self.spent(), self.boards.actor(task).end)
    }

    /// The number of events: at most one for each step of the run, each task and each step of the input script. Each
    /// was served after those before it.
    pub fn len(&self) -> u32
        ensures same { result ≡ length self.now.history }
        ensures few { result ≤ self.now.cell.steps + length self.now.cell.tasks + length self.now.cell.inputs }
        ensures sound { IsSound self.now.cell self.now.history }
    {
        self.pages.len()
    }

    /// Event `k`, from 0.
    pub fn event(&self, k: u32) -> Event
        requires { k < length self.now.history }
        ensures { slice_get self.now.history k ≡ Some result }
    {
        self.pages.get(k)
    }

    /// Whether event `k`, from 0, asks for a setpoint or a text to the operator. Quicker than `event`.
    pub fn is_lined(&self, k: u32) -> bool
        requires { k < length self.now.history }
        ensures { (event : Event) → slice_get self.now.history k ≡ Some event → result ≡ is_lined event.request }
    {
        self.pages.is_lined(k)
    }

    /// The actor and the joints of event `k`, from 0, if it is a setpoint that was given. Quicker than `event`.
    pub fn given(&self, k: u32) -> Option<(u32, Joints)>
        requires { k < length self.now.history }
        ensures { (event : Event) → slice_get self.now.history k ≡ Some event → result ≡ given_in event }
    {
        self.pages.given(k)
    }

    /// The number of tasks.
    pub fn task_count(&self) -> u32
        ensures same { result ≡ length self.now.cell.tasks }
        ensures few { result ≤ MOST_TASKS }
    {
        self.tasks
    }

    /// The cell.
    pub fn cell(&self) -> &Cell
        ensures { result.now ≡ self.now.cell }
    {
        &self.cell
    }

    /// The value of a part of a persistent, which has the element and the part that the path names.
    pub fn pers(&self, pers: u32, path: &Path) -> Value
        requires { IsTrue (of_pers self.now.cell pers (λ row. has_path row path.now)) }
        ensures { value_at (persistent_after self.now.cell self.now.history pers) path.now ≡ Some result }
    {
        self.boards.value(pers, path)
    }

    /// The cell, without its history.
    pub fn into_cell(self) -> Cell
        ensures { result ≡ self.cell }
    {
        let Core {
            cell,
            steps: _,
            tasks: _,
            pages: _,
            boards: _,
            report: _,
            fates: _,
        } = self;
        cell
    }

    /// The events, oldest first, and how each task stands, in script order. Allocates nothing.
    pub fn into_report(self) -> (Vec<Event>, Vec<Fate>)
        ensures history { result.0.items ≡ self.history }
        ensures fates { result.1.items ≡ fates_after self.cell self.history (length self.cell.tasks) }
    {
        let spent = self.spent();
        let Core {
            cell: _,
            steps: _,
            tasks,
            pages,
            boards,
            mut report,
            mut fates,
        } = self;
        pages.copy_to(&mut report);
        tell(&boards, tasks, spent, &mut fates);
        (report, fates)
    }
}

fn all_so(passed: bool, over: bool, left: bool) -> bool
    ensures { result ≡ (passed && not over && left) }
{
    passed && !over && left
}
