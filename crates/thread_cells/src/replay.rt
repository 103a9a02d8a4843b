//! A plain replay of the rules of a run, for a cell whose tasks all run the module of `counting`.

use controller::Report;
use rapid_model::{Answer, Event, Fate, PartName, Path, Request, Value};
use rapid_num::Num;

/// How many tasks the cell has.
const TASKS: u32 = 4;

/// The one persistent of the cell, whole.
const WHOLE: Path = Path {
    index: 0,
    part: PartName::Whole,
};

/// A statement of the module's `main`.
#[derive(Clone, Copy)]
enum Statement {
    CountOne,
    WaitForThree,
    CountAgain,
}

/// What a task asks next. Counts are in thousandths.
#[derive(Clone, Copy)]
enum Next {
    Look,
    Read,
    Write(i64),
    Hold,
    Rise,
    End,
    Nothing,
}

/// A task of the cell: the statement that it is at, how many changes by others its last Look reported, and how many it
/// made.
#[derive(Clone, Copy)]
struct Task {
    statement: Statement,
    next: Next,
    seen: u32,
    made: u32,
}

/// The cell during a run: the value of the persistent, and how many changes each task made.
#[derive(Drop)]
struct Replay {
    count: i64,
    changes: u32,
    tasks: [Task; TASKS as usize],
}

/// Each event is the next one of its task, with the answer of the cell after all events before it, and no event can
/// follow the last one. The history is given in two parts.
pub fn is_legal_and_whole(before: &[Event], after: &[Event]) -> bool {
    let mut replay = Replay::new();
    replay.take_all(before) && replay.take_all(after) && replay.is_over()
}

/// The status and the fates are those of the history: a task that has no End waits.
pub fn tells_its_history(report: &Report) -> bool {
    let mut all_ended = true;
    for task in 0..TASKS {
        let ended = has_ended(report, task);
        let fate = if ended { Fate::Done } else { Fate::Held };
        if report.fates.get(task as usize) != Some(&fate) {
            return false;
        }
        all_ended = all_ended && ended;
    }
    report.fates.len() == TASKS as usize && report.status == if all_ended { 0 } else { 8 }
}

fn has_ended(report: &Report, task: u32) -> bool {
    for event in &report.history {
        if event.actor == task && matches!(event.request, Request::End { .. }) {
            return true;
        }
    }
    false
}

impl Replay {
    fn new() -> Replay {
        let first = Task {
            statement: Statement::CountOne,
            next: Next::Look,
            seen: 0,
            made: 0,
        };
        Replay {
            count: 0,
            changes: 0,
            tasks: [first; TASKS as usize],
        }
    }

    fn take_all(&mut self, events: &[Event]) -> bool {
        for event in events {
            match self.next_event(event.actor) {
                Some(next) if next == *event => self.take_next(event.actor),
                _ => return false,
            }
        }
        true
    }

    fn is_over(&self) -> bool {
        for task in 0..TASKS {
            if self.next_event(task).is_some() {
                return false;
            }
        }
        true
    }

    /// How many changes the others made.
    fn others(&self, task: &Task) -> u32 {
        self.changes.saturating_sub(task.made)
    }

    /// The next event of a task, if it can have one now.
    fn next_event(&self, actor: u32) -> Option<Event> {
        let task = self.tasks.get(actor as usize)?;
        let others = self.others(task);
        let (request, answer) = match task.next {
            Next::Look => (Request::Look, Answer::Go { seen: others }),
            Next::Read => (
                Request::ReadP {
                    pers: 0,
                    path: WHOLE,
                },
                Answer::Val(Value::Num(Num::new(self.count)?)),
            ),
            Next::Write(count) => (
                Request::WriteP {
                    pers: 0,
                    path: WHOLE,
                    value: Value::Num(Num::new(count)?),
                },
                Answer::Ok,
            ),
            Next::Hold => (Request::Hold { seen: task.seen }, Answer::Ok),
            Next::Rise if others > task.seen => (Request::Rise, Answer::Ok),
            Next::End => (Request::End { fate: Fate::Done }, Answer::Ok),
            Next::Rise | Next::Nothing => return None,
        };
        Some(Event {
            actor,
            request,
            answer,
        })
    }

    /// What the next event of a task changes.
    fn take_next(&mut self, actor: u32) {
        let at = actor as usize;
        if at >= self.tasks.len() {
            return;
        }
        let mut task = self.tasks[at];
        if let Next::Write(count) = task.next {
            if self.count != count {
                self.changes = self.changes.saturating_add(1);
                task.made = task.made.saturating_add(1);
            }
            self.count = count;
        }
        let others = self.others(&task);
        task.go_on(self.count, others);
        self.tasks[at] = task;
    }
}

impl Task {
    /// The task's next event is done.
    fn go_on(&mut self, count: i64, others: u32) {
        match self.next {
            Next::Look => {
                self.seen = others;
                self.next = Next::Read;
            }
            Next::Read => self.read(count),
            Next::Write(_) => self.written(),
            Next::Hold => self.next = Next::Rise,
            Next::Rise => self.next = Next::Look,
            Next::End | Next::Nothing => self.next = Next::Nothing,
        }
    }

    /// The task has read the count.
    fn read(&mut self, count: i64) {
        match self.statement {
            Statement::CountOne | Statement::CountAgain => {
                self.next = Next::Write(count.saturating_add(1000));
            }
            Statement::WaitForThree if count < 3000 => self.next = Next::Hold,
            Statement::WaitForThree => {
                self.statement = Statement::CountAgain;
                self.next = Next::Look;
            }
        }
    }

    /// The task has written the count.
    fn written(&mut self) {
        match self.statement {
            Statement::CountOne => {
                self.statement = Statement::WaitForThree;
                self.next = Next::Look;
            }
            _ => self.next = Next::End,
        }
    }
}
