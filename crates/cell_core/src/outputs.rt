//! Signals that zones of arms set (RAPID Instructions: WZDOSet).

ghost use Rattle.std.specs.Prelude.{◌≡◌, ◌<◌, ◌++◌, ℕ, Bool, length, option_to_list, IfSome};
ghost use Rattle.rapid_num.specs.declared.shape.Shape.{Shape as TheShape};
ghost use Rattle.rapid_model.specs.declared.request.Request.TheVariants as requests;
ghost use Rattle.world_zones.specs.Zones.{arm_at};
ghost use Rattle.cell_meaning.specs.Outputs.{all_outputs, output_of, outputs_set, where_arm, with_outputs};
ghost use Rattle.cell_core.specs.Changes.{changed_outputs, outputs_change, set_change};
ghost use Rattle.cell_core.specs.Ready.{HasOutputs};

use crate::change::Change;
use crate::changed::Changed;
use crate::outcome::Outcome;
use rapid_limits::MOST_ZONES;
use rapid_model::{Answer, Watched};
use rapid_num::Joints;
use signal_board::Signals;
use world_zones::Zones;

/// Sets what all zones of a task's arm set while the arm is at a position. Each signal that a zone sets exists.
#[tactic(auto, using(crate::proofs::ZoneByZone::signals_more, crate::proofs::ZoneByZone::changed_more, crate::proofs::ZoneByZone::one_changed))]
pub(crate) fn set_all(signals: &mut Signals, zones: &Zones, actor: u32, at: &Joints) -> Change
    requires { HasOutputs zones.now actor (length signals.old) }
    ensures change { result ≡ outputs_change (changed_outputs signals.old (all_outputs (arm_at zones.now actor) at.now)) }
    ensures signals { signals.new ≡ with_outputs signals.old (all_outputs (arm_at zones.now actor) at.now) }
{
    let mut changed = Changed::new();
    for index in 0..MOST_ZONES {
        let output = zones.output(actor, index as u8 + 1, at);
        set(signals, output, &mut changed);
    }
    Change::of_outputs(changed)
}

/// The outcome of a ZoneTie with this answer: a zone that was given sets its signal.
pub(crate) fn given(
    signals: &mut Signals,
    zones: &Zones,
    actor: u32,
    arm: &Option<Joints>,
    answer: Answer,
) -> Outcome
    requires { HasOutputs zones.now actor (length signals.old) }
    ensures answer { result.answer ≡ answer }
    ensures change { (old : ℕ) (temporary : Bool) (shape : TheShape) (signal : ℕ) (value : Bool) → result.change ≡ set_change signals.old (arm_at zones.now actor) arm.now (requests.ZoneTie old temporary shape signal value) answer }
    ensures signals { (old : ℕ) (temporary : Bool) (shape : TheShape) (signal : ℕ) (value : Bool) → signals.new ≡ with_outputs signals.old (outputs_set (arm_at zones.now actor) arm.now (requests.ZoneTie old temporary shape signal value) answer) }
{
    let change = match &answer {
        Answer::Number(number) => set_one(signals, zones, actor, *number, arm),
        _ => Change::Nothing,
    };
    Outcome { answer, change }
}

/// The outcome of a ZoneOn with this answer: a zone that was switched on sets its signal.
pub(crate) fn switched_on(
    signals: &mut Signals,
    zones: &Zones,
    actor: u32,
    arm: &Option<Joints>,
    zone: u8,
    answer: Answer,
) -> Outcome
    requires { HasOutputs zones.now actor (length signals.old) }
    ensures answer { result.answer ≡ answer }
    ensures change { result.change ≡ set_change signals.old (arm_at zones.now actor) arm.now (requests.ZoneOn zone) answer }
    ensures signals { signals.new ≡ with_outputs signals.old (outputs_set (arm_at zones.now actor) arm.now (requests.ZoneOn zone) answer) }
{
    let change = match &answer {
        Answer::Ok => set_one(signals, zones, actor, zone, arm),
        _ => Change::Nothing,
    };
    Outcome { answer, change }
}

/// Sets what one zone of a task's arm sets where the arm is.
fn set_one(
    signals: &mut Signals,
    zones: &Zones,
    actor: u32,
    zone: u8,
    arm: &Option<Joints>,
) -> Change
    requires { HasOutputs zones.now actor (length signals.old) }
    ensures change { result ≡ outputs_change (changed_outputs signals.old (where_arm (output_of (arm_at zones.now actor) zone) arm.now)) }
    ensures signals { signals.new ≡ with_outputs signals.old (where_arm (output_of (arm_at zones.now actor) zone) arm.now) }
{
    let mut changed = Changed::new();
    if let Some(at) = arm {
        let output = zones.output(actor, zone, at);
        set(signals, output, &mut changed);
    }
    Change::of_outputs(changed)
}

/// Sets a signal to the value that a zone gives it, if there is one, and appends it if it had another value.
fn set(signals: &mut Signals, output: Option<(u32, bool)>, changed: &mut Changed)
    requires room { length changed.old < MOST_ZONES }
    requires there { IfSome output (λ o. o.0 < length signals.old) }
    ensures signals { signals.new ≡ with_outputs signals.old (option_to_list output) }
    ensures changed { changed.new ≡ changed.old ++ changed_outputs signals.old (option_to_list output) }
{
    if let Some((signal, value)) = output {
        if signals.set(signal, value) {
            changed.push(Watched::Signal { signal, value });
        }
    }
}
