//! How routines are entered: main as the task begins, by a call, and by an interrupt.

ghost use Rattle.std.specs.Prelude.{◌≡◌, ◌≢◌, ◌<◌, ◌≤◌, ℕ, List, [], ◌∷◌, length, reverse, take, drop, slice_get, Some, IsTrue, IfOk};
ghost use Rattle.task_code.specs.Leads.{Runs};
ghost use Rattle.rapid_meaning.specs.Frames.{has_room};
ghost use Rattle.rapid_model.specs.declared.answer.Answer.TheVariants as answers;
ghost use Rattle.typed_trees.specs.declared.datum.Datum.{Datum};
ghost use Rattle.stack_code.specs.CodeData.{CodeData};
ghost use Rattle.stack_code.specs.Entering.{enter, entered, frame_in, initial, started};
ghost use Rattle.stack_code.specs.Steps.{act, looked};
ghost use Rattle.stack_code.specs.declared.op.Op.TheVariants as ops;
ghost use Rattle.task_steps.specs.Alike.{Follows, Turns};
ghost use Rattle.task_steps.specs.Doing.{answered, here_of};
ghost use Rattle.task_steps.specs.Points.{Called, fresh, point, saved_in};
ghost use Rattle.task_steps.specs.Savings.{saved_row};
ghost use Rattle.task_steps.specs.Seen.{room_of};
ghost use Rattle.task_steps.specs.declared.requests.pending.Pending.TheVariants as pendings;
ghost use Rattle.task_steps.specs.Phases as phases;

use crate::requests::pending::Pending;
use crate::routines::living::keep_code;
use crate::routines::loaded::LoadedCode;
use crate::routines::row::Row;
use crate::routines::running::Running;
use crate::steps::done::Done;
use crate::steps::stage::Stage;
use crate::task::Task;
use machine_stacks::{Frames, Operands, slots_of};
use rapid_limits::{MOST_FRAME_VALUES, MOST_FRAMES};
use rapid_model::{Answer, Fate, Fault, Request};
use stack_code::RoutineRow;
use std::alloc::{AllocError, Global};

impl Task {
    /// A task that has not begun, with room for the most frames, their values, and for each frame and one more the most
    /// operands of a frame of its code. Fails only if an allocation fails.
    pub fn new(alloc: Global, loaded: &LoadedCode) -> Result<Task, AllocError>
        ensures phase { IfOk result (λ t. t.phase ≡ phases.New) }
        ensures data { IfOk result (λ t. t.data' ≡ initial loaded.now) }
        ensures room { IfOk result (λ t. t.room ≡ room_of loaded.now) }
    {
        let code = loaded.code();
        keep_code(code);
        let room = code.deepest();
        let rows = Vec::with_capacity(alloc, MOST_FRAMES)?;
        let operands = Operands::new(alloc, (MOST_FRAMES + 1) * room as usize, MOST_FRAMES)?;
        let frames = Frames::new(alloc, MOST_FRAME_VALUES, MOST_FRAMES)?;
        let slots = slots_of(alloc, code.slots())?;
        Ok(Task {
            stage: Stage::New,
            asked: Request::Look,
            then: Pending::Looked,
            pc: 0,
            frame: Running {
                routine: 0,
                failed: None,
            },
            way: None,
            rows,
            operands,
            frames,
            slots,
            errno: 0,
            trapped: false,
            place: None,
            room,
        })
    }

    /// The task begins with main.
    pub fn begin(&mut self, loaded: &LoadedCode)
        requires fresh { self.old.phase ≡ phases.New }
        requires data { self.old.data' ≡ initial loaded.now }
        requires room { self.old.room ≡ room_of loaded.now }
        requires runs { Runs loaded.now (started loaded.now) self.old.data' }
        ensures room { self.new.room ≡ self.old.room }
        ensures begun { self.new.phase ≢ phases.New }
        ensures on { Follows loaded.now (started loaded.now) self.old.data' self.new }
    {
        self.stage = Stage::Going;
        let done = self.enter_main(loaded);
        let code = loaded.code();
        keep_code(code);
        self.commit(code, done);
    }

    /// Enters main, if no routine is active.
    #[tactic(auto, unfolding(crate::specs::Points::saved_in))]
    fn enter_main(&mut self, loaded: &LoadedCode) -> Option<Done>
        requires { self.old.conf.saved ≡ [] }
        ensures phase { self.new.phase ≡ self.old.phase }
        ensures room { self.new.room ≡ self.old.room }
        ensures turns { Turns loaded.now (started loaded.now) self.old.data' result self.new }
    {
        let main = loaded.code().main();
        self.enter_alone(loaded, main, Row::Started)
    }

    /// Enters a routine, by its number, without arguments, above the row to which it returns.
    fn enter_alone(&mut self, loaded: &LoadedCode, routine: u32, below: Row) -> Option<Done>
        ensures phase { self.new.phase ≡ self.old.phase }
        ensures room { self.new.room ≡ self.old.room }
        ensures turns { Turns loaded.now (enter loaded.now routine [] (saved_in loaded.now (saved_row below self.old.conf.stack ∷ self.old.conf.saved))) self.old.data' result self.new }
    {
        match loaded.code().routines().get(routine as usize) {
            Some(row) => self.enter(loaded, routine, *row, 0, below),
            None => None,
        }
    }

    /// Enters a routine, with `args` operands as its arguments, above the row to which it returns; a fault if there is
    /// no room.
    fn enter(
        &mut self,
        loaded: &LoadedCode,
        routine: u32,
        row: RoutineRow,
        args: u16,
        below: Row,
    ) -> Option<Done>
        requires row { slice_get loaded.now.routines routine ≡ Some row }
        requires args { args ≤ length self.old.conf.stack }
        ensures phase { self.new.phase ≡ self.old.phase }
        ensures room { self.new.room ≡ self.old.room }
        ensures turns { Turns loaded.now (entered loaded.now routine row (reverse (take args self.old.conf.stack)) (saved_in loaded.now (saved_row below (drop args self.old.conf.stack) ∷ self.old.conf.saved))) self.old.data' result self.new }
    {
        if self.has_room(loaded, routine, row, args) {
            self.stack_on(loaded, routine, row, args, below);
            Some(Done::Stay)
        } else {
            Some(Done::End(Fate::Fault(Fault::DepthLimit)))
        }
    }

    /// Whether there is room for the frame of a routine with `args` operands as its arguments.
    fn has_room(&self, loaded: &LoadedCode, routine: u32, row: RoutineRow, args: u16) -> bool
        requires row { slice_get loaded.now.routines routine ≡ Some row }
        requires args { args ≤ length self.now.conf.stack }
        ensures { result ≡ has_room self.now.data'.frames (frame_in loaded.now row (reverse (take args self.now.conf.stack))) }
    {
        let values = args as usize + loaded.own_values(routine, row);
        self.frames.count() < MOST_FRAMES && self.frames.values() + values <= MOST_FRAME_VALUES
    }

    /// Puts a routine, for whose frame there is room, on those that are active.
    fn stack_on(
        &mut self,
        loaded: &LoadedCode,
        routine: u32,
        row: RoutineRow,
        args: u16,
        below: Row,
    )
        requires row { slice_get loaded.now.routines routine ≡ Some row }
        requires args { args ≤ length self.old.conf.stack }
        requires room { IsTrue (has_room self.old.data'.frames (frame_in loaded.now row (reverse (take args self.old.conf.stack)))) }
        ensures phase { self.new.phase ≡ self.old.phase }
        ensures room { self.new.room ≡ self.old.room }
        ensures conf { self.new.conf ≡ point row.entry [] (fresh routine) (saved_row below (drop args self.old.conf.stack) ∷ self.old.conf.saved) }
        ensures data { self.new.data' ≡ record self.old.data' { frames = frame_in loaded.now row (reverse (take args self.old.conf.stack)) ∷ self.old.data'.frames } }
    {
        loaded.enter(routine, row, args, &mut self.frames, &mut self.operands);
        self.rows.push_reserved(below);
        self.operands.open();
        self.frame = Running {
            routine,
            failed: None,
        };
        self.way = None;
        self.pc = row.entry;
    }

    /// Calls a routine, by its number, with as many operands as it takes.
    pub(crate) fn call(&mut self, loaded: &LoadedCode, routine: u32) -> Option<Done>
        requires within { self.old.conf.pc < length loaded.now.ops }
        ensures phase { self.new.phase ≡ self.old.phase }
        ensures room { self.new.room ≡ self.old.room }
        ensures turns { Turns loaded.now (act (here_of loaded.now self.old.conf) (ops.Call routine)) self.old.data' result self.new }
    {
        let row = *loaded.code().routines().get(routine as usize)?;
        if self.operands.len() < usize::from(row.args) {
            return None;
        }
        let below = self.caller();
        self.enter(loaded, routine, row, row.args, below)
    }

    /// The row to which a routine returns that is called here.
    fn caller(&self) -> Row
        ensures { (stack : List Datum) → saved_row result stack ≡ Called self.now.conf.pc stack self.now.conf.frame }
    {
        let at = self.pc;
        let frame = self.frame;
        Row::Called { at, frame }
    }

    /// Goes on with the answer to a Look: with the statement, or a trap begins.
    pub(crate) fn looked(&mut self, loaded: &LoadedCode, answer: Answer) -> Option<Done>
        ensures phase { self.new.phase ≡ self.old.phase }
        ensures room { self.new.room ≡ self.old.room }
        ensures turns { Turns loaded.now (answered (here_of loaded.now self.old.conf) pendings.Looked answer) self.old.data' result self.new }
    {
        match answer {
            Answer::Go { seen } => self.go_on(seen),
            Answer::Trap { number: _, trap } => self.interrupt(loaded, trap),
            Answer::Flood => Some(Done::End(Fate::Fault(Fault::TrapFlood))),
            _ => None,
        }
    }

    /// Goes on with the statement; other actors have made `seen` changes so far.
    fn go_on(&mut self, seen: u32) -> Option<Done>
        ensures phase { self.new.phase ≡ self.old.phase }
        ensures room { self.new.room ≡ self.old.room }
        ensures turns { (code : CodeData) → Turns code (looked (here_of code self.old.conf) (answers.Go seen)) self.old.data' result self.new }
    {
        self.frames.set_seen(seen);
        Some(Done::Next)
    }

    /// Begins a trap, by the number of its routine, and puts the move aside.
    fn interrupt(&mut self, loaded: &LoadedCode, trap: u32) -> Option<Done>
        ensures phase { self.new.phase ≡ self.old.phase }
        ensures room { self.new.room ≡ self.old.room }
        ensures turns { (number : ℕ) → Turns loaded.now (looked (here_of loaded.now self.old.conf) (answers.Trap number trap)) self.old.data' result self.new }
    {
        let at = self.pc;
        let frame = self.frame;
        let way = self.way.take();
        self.trapped = true;
        self.enter_alone(loaded, trap, Row::Trapped { at, frame, way })
    }
}
