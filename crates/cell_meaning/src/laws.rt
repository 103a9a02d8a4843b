ghost use Rattle.std.specs.Prelude.{◌≡◌, ◌<◌, ◌↔◌, ℕ, Bool, List, [], length, map, count_by, IsTrue, true, false, Some};
ghost use Rattle.rapid_num.specs.declared.shape.Shape.{Shape};
ghost use Rattle.rapid_model.specs.CellData.{CellData, IsCell};
ghost use Rattle.rapid_model.specs.Fits.{fits_request, fitting_in};
ghost use Rattle.rapid_model.specs.Own.{part_of, answers_of, has_ended};
ghost use Rattle.rapid_model.specs.declared.answer.Answer.{Answer};
ghost use Rattle.rapid_model.specs.declared.event.Event.{Event};
ghost use Rattle.rapid_model.specs.declared.request.Request.{Request};
ghost use Rattle.rapid_model.specs.declared.request.Request.TheVariants as requests;
ghost use Rattle.rapid_model.specs.declared.watched.Watched.{Watched};
ghost use Rattle.rapid_model.specs.declared.zone_name.ZoneName.TheVariants.{Own};
ghost use Rattle.sync_tasks.specs.Meetings.{stand_at};
ghost use Rattle.trap_dispatch.specs.declared.connected.Connected.{Connected};
ghost use Rattle.trap_dispatch.specs.Firing.{connected_at};
ghost use Rattle.world_zones.specs.declared.output.Output.{Output};
ghost use Rattle.world_zones.specs.declared.own_zone.OwnZone.{OwnZone};
ghost use Rattle.world_zones.specs.Touched.{supervised};
ghost use Rattle.world_zones.specs.Zones.{arm_at, zone_at};
ghost use Rattle.cell_meaning.specs.Answers.{is_enabled, IsAnswer};
ghost use Rattle.cell_meaning.specs.Asking.{with_inputs};
ghost use Rattle.cell_meaning.specs.Fates.{all_ended, is_spent};
ghost use Rattle.cell_meaning.specs.Histories.{IsLegal, IsWhole};
ghost use Rattle.cell_meaning.specs.Interrupts.{interrupts_of};
ghost use Rattle.cell_meaning.specs.InterruptsSince.{Connects, ConnectsAny, Deletes, EndsOrder, IsAsleep, Orders};
ghost use Rattle.cell_meaning.specs.MayAsk.{may_ask};
ghost use Rattle.cell_meaning.specs.Meetings.{is_waiting, stands_after};
ghost use Rattle.cell_meaning.specs.MeetingsSince.{Comes, ComesApart, is_met_at};
ghost use Rattle.cell_meaning.specs.Orders.{IsInOrder};
ghost use Rattle.cell_meaning.specs.OutputsFollow.{OutputsFollow};
ghost use Rattle.cell_meaning.specs.Over.{IsOver};
ghost use Rattle.cell_meaning.specs.Premises.{OnlyActorsAsk, AsksOne, AsksWhatItMay, AsksUntilItsEnd, AsksInputs, TasksAskWell, AllAnswered, AskTheSame, StartsFull};
ghost use Rattle.cell_meaning.specs.Since.{Since};
ghost use Rattle.cell_meaning.specs.Stalled.{is_stalled};
ghost use Rattle.cell_meaning.specs.Stored.{signals_after};
ghost use Rattle.cell_meaning.specs.Turns.{IsByTurns};
ghost use Rattle.cell_meaning.specs.Zones.{zones_after};
ghost use Rattle.cell_meaning.specs.ZonesSince.{Sets, Watches};

use crate::askers::Askers;

/// A law: the cell has at most one answer to a request.
pub fn answer_is_one()
    ensures { (cell : CellData) (history : List Event) (actor : ℕ) (request : Request) (answer other : Answer) → IsAnswer cell history actor request answer → IsAnswer cell history actor request other → answer ≡ other }
{}

/// A law: an answer of the cell fits its request, if each actor may ask what it asked and got the cell's answers.
pub fn answers_fit()
    ensures { (cell : CellData) (history : List Event) (actor : ℕ) (request : Request) (answer : Answer) → IsCell cell → StartsFull cell → AllAnswered cell history → IsTrue (may_ask cell actor (part_of actor history) request) → IsAnswer cell history actor request answer → IsTrue (fits_request (fitting_in cell actor (part_of actor history)) request answer) }
{}

/// A law: a round-robin run is legal, and nothing follows it.
pub fn run_by_turns_is_legal_and_whole<A: Askers>()
    ensures legal { (cell : CellData) (history : List Event) → IsCell cell → StartsFull cell → AsksWhatItMay A.asks cell → IsByTurns A.asks cell history → IsLegal A.asks cell history }
    ensures whole { (cell : CellData) (history : List Event) → OnlyActorsAsk A.asks cell → IsByTurns A.asks cell history → IsWhole A.asks cell history }
{}

/// A law: two round-robin runs of the same actors in the same cell are the same history.
pub fn run_by_turns_is_one<A: Askers>()
    ensures { (cell : CellData) (history other : List Event) → AsksOne A.asks → IsByTurns A.asks cell history → IsByTurns A.asks cell other → history ≡ other }
{}

/// A law: a run in an order is legal, and nothing follows it.
pub fn run_in_order_is_legal_and_whole<A: Askers>()
    ensures legal { (cell : CellData) (choices : List ℕ) (history : List Event) → IsCell cell → StartsFull cell → AsksWhatItMay A.asks cell → IsInOrder A.asks cell choices history → IsLegal A.asks cell history }
    ensures whole { (cell : CellData) (choices : List ℕ) (history : List Event) → OnlyActorsAsk A.asks cell → IsInOrder A.asks cell choices history → IsWhole A.asks cell history }
{}

/// A law: two runs of the same actors in the same cell and order are the same history.
pub fn run_in_order_is_one<A: Askers>()
    ensures { (cell : CellData) (choices : List ℕ) (history other : List Event) → AsksOne A.asks → IsInOrder A.asks cell choices history → IsInOrder A.asks cell choices other → history ≡ other }
{}

/// A law: the run in the empty order is the round-robin run, and the other way round.
pub fn no_choices_are_by_turns<A: Askers>()
    ensures { (cell : CellData) (history : List Event) → IsInOrder A.asks cell [] history ↔ IsByTurns A.asks cell history }
{}

/// A law: each legal and complete history is the run in the order of its own actors.
pub fn each_history_has_its_order<A: Askers>()
    ensures { (cell : CellData) (history : List Event) → IsLegal A.asks cell history → IsWhole A.asks cell history → IsInOrder A.asks cell (map (λ e. e.actor) history) history }
{}

/// A law: after a legal and complete history, each task has ended, or waits for something that is not enabled, or the
/// steps are used up.
pub fn whole_history_is_over<A: Askers>()
    ensures { (cell : CellData) (history : List Event) (task : ℕ) → task < length cell.tasks → AsksUntilItsEnd A.asks cell → IsLegal A.asks cell history → IsWhole A.asks cell history → IsOver A.asks cell history task }
{}

/// A law: if two ask the same, a history that is legal, complete, the round-robin run or the run in an order for one is
/// so for the other.
pub fn who_ask_the_same_have_the_same_histories<A: Askers, B: Askers>()
    ensures legal { (cell : CellData) (history : List Event) → AskTheSame A.asks B.asks → IsLegal A.asks cell history → IsLegal B.asks cell history }
    ensures whole { (cell : CellData) (history : List Event) → AskTheSame A.asks B.asks → IsWhole A.asks cell history → IsWhole B.asks cell history }
    ensures by_turns { (cell : CellData) (history : List Event) → AskTheSame A.asks B.asks → IsByTurns A.asks cell history → IsByTurns B.asks cell history }
    ensures in_order { (cell : CellData) (choices : List ℕ) (history : List Event) → AskTheSame A.asks B.asks → IsInOrder A.asks cell choices history → IsInOrder B.asks cell choices history }
{}

/// A law: in a stalled cell each task that has not ended asks for a Rise that is not enabled.
pub fn stalled_tasks_wait<A: Askers>()
    ensures { (cell : CellData) (history : List Event) (task : ℕ) (request : Request) → task < length cell.tasks → AsksWhatItMay A.asks cell → IsLegal A.asks cell history → IsTrue (is_stalled cell history) → A.asks task (answers_of task history) request → (request ≡ requests.Rise) × (is_enabled cell history task request ≡ false) }
{}

/// A law: after a legal history the cell is stalled exactly if nothing follows, a task has not ended, and steps are
/// left.
pub fn stalled_history_is_whole<A: Askers>()
    ensures whole { (cell : CellData) (history : List Event) → AsksWhatItMay A.asks cell → IsLegal A.asks cell history → IsTrue (is_stalled cell history) → IsWhole A.asks cell history × (all_ended (length cell.tasks) history ≡ false) × (is_spent cell history ≡ false) }
    ensures stalled { (cell : CellData) (history : List Event) → AsksWhatItMay A.asks cell → AsksUntilItsEnd A.asks cell → AsksInputs A.asks cell → IsLegal A.asks cell history → IsWhole A.asks cell history → all_ended (length cell.tasks) history ≡ false → is_spent cell history ≡ false → IsTrue (is_stalled cell history) }
{}

/// A law: the tasks and the input script together ask as the other laws require, if the tasks do.
pub fn input_script_is_an_actor<A: Askers, B: Askers>()
    ensures only { (cell : CellData) → OnlyActorsAsk (with_inputs A.asks cell) cell }
    ensures one { (cell : CellData) → AsksOne A.asks → AsksOne (with_inputs A.asks cell) }
    ensures inputs { (cell : CellData) → AsksInputs (with_inputs A.asks cell) cell }
    ensures may { (cell : CellData) → TasksAskWell A.asks cell → AsksWhatItMay (with_inputs A.asks cell) cell }
    ensures goes_on { (cell : CellData) → TasksAskWell A.asks cell → AsksUntilItsEnd (with_inputs A.asks cell) cell }
    ensures same { (cell : CellData) → AskTheSame A.asks B.asks → AskTheSame (with_inputs A.asks cell) (with_inputs B.asks cell) }
{}

/// A law: if each actor may ask what it asked and got the cell's answers, the meetings are as the events alone say: a
/// task went on from a meeting as often as it met the others there, and it waits if its last arrival there did not meet
/// them.
pub fn meetings_are_as_arrived()
    ensures passed { (cell : CellData) (history : List Event) (task meeting : ℕ) → AllAnswered cell history → task < length cell.tasks → meeting < length cell.meetings → (stand_at (stands_after cell history) task meeting).passed ≡ count_by (λ e. is_met_at meeting e.request e.answer) (part_of task history) }
    ensures waits { (cell : CellData) (history : List Event) (task meeting : ℕ) → AllAnswered cell history → task < length cell.tasks → meeting < length cell.meetings → IsTrue (is_waiting cell history task meeting) ↔ Since (ComesApart task meeting) (Comes task meeting) history }
{}

/// A law: the same for the zones of arms. A task's own zone watches its arm if a ZoneSet gave it, no ZoneFree has freed
/// it since, and its last switch, counting the ZoneSet, is not ZoneOff. Likewise it is on with an output if a ZoneTie
/// gave it.
pub fn zones_are_as_given()
    ensures watches { (cell : CellData) (history : List Event) (task number : ℕ) (shape : Shape) → AllAnswered cell history → task < length cell.tasks → (supervised (zones_after cell history) task (signals_after cell history) (Own number) ≡ Some shape) ↔ Watches task number shape history }
    ensures sets { (cell : CellData) (history : List Event) (task number : ℕ) (shape : Shape) (output : Output) → AllAnswered cell history → task < length cell.tasks → ((zone : OwnZone) × (zone_at (arm_at (zones_after cell history) task) number ≡ Some zone) × (zone.shape ≡ shape) × (zone.on ≡ true) × (zone.output ≡ Some output)) ↔ Sets task number shape output history }
{}

/// A law: in a legal history, whoever asks, each output that a zone of an arm sets has the zone's value exactly while the
/// arm is in the zone, from the event that gave the zone or switched it on until it is switched off or freed.
pub fn outputs_follow_their_zones<A: Askers>()
    ensures { (cell : CellData) (history : List Event) → IsCell cell → AsksWhatItMay A.asks cell → IsLegal A.asks cell history → OutputsFollow cell history }
{}

/// A law: the same for interrupts. A number is connected with a trap from the Connect that it answered until it is
/// deleted. A connected number sleeps if the last of its Connect, Sleep and Watch is a Sleep. It has an order from the
/// Order that was answered Ok until the number is connected anew or, if the order is Single, it fires.
pub fn interrupts_are_as_asked()
    ensures connected { (cell : CellData) (history : List Event) (task number trap : ℕ) → AllAnswered cell history → task < length cell.tasks → ((c : Connected) × (connected_at (interrupts_of cell history task).numbers number ≡ Some c) × (c.trap ≡ trap)) ↔ Since (Connects task number trap) (Deletes task number) history }
    ensures asleep { (cell : CellData) (history : List Event) (task number : ℕ) (c : Connected) → AllAnswered cell history → task < length cell.tasks → connected_at (interrupts_of cell history task).numbers number ≡ Some c → (c.asleep ≡ true) ↔ IsAsleep task number history }
    ensures ordered { (cell : CellData) (history : List Event) (task number : ℕ) (c : Connected) (on : Watched) (single : Bool) → AllAnswered cell history → task < length cell.tasks → connected_at (interrupts_of cell history task).numbers number ≡ Some c → (c.order ≡ Some (record { on = on; single = single })) ↔ Since (Orders task number on single) (EndsOrder cell task number on single) history }
{}
