//! Requests to a task's arm (RAPID Instructions: MoveAbsJ; Functions: CJointT).

ghost use Rattle.std.specs.Prelude.{◌≡◌, ◌<◌, All, length};
ghost use Rattle.rapid_model.specs.declared.request.Request.TheVariants as requests;
ghost use Rattle.world_zones.specs.Zones.{arm_at};
ghost use Rattle.cell_meaning.specs.Answers.{position_of};
ghost use Rattle.cell_meaning.specs.Outputs.{outputs_set, with_outputs};
ghost use Rattle.cell_core.specs.Answering.{IsMoveAnswerOn};
ghost use Rattle.cell_core.specs.Boards.{arm_moved};
ghost use Rattle.cell_core.specs.Changes.{set_change};
ghost use Rattle.cell_core.specs.Ready.{HasOutputs};

use crate::outcome::{Outcome, unchanged};
use crate::outputs::set_all;
use rapid_model::Answer;
use rapid_num::Joints;
use signal_board::Signals;
use world_zones::Zones;

/// Where the arm is.
pub(crate) fn position_of(arm: &Option<Joints>) -> Answer
    ensures { result ≡ position_of arm.now }
{
    match arm {
        Some(position) => Answer::At(*position),
        None => Answer::Ok,
    }
}

/// Whether the arm goes on to a setpoint, or a zone on the way stops it, the first that it touches. If it goes on, its
/// zones set their signals. Each signal that a zone names exists.
pub(crate) fn go(
    zones: &Zones,
    signals: &mut Signals,
    actor: u32,
    arm: &Option<Joints>,
    to: &Joints,
) -> Outcome
    requires sets { HasOutputs zones.now actor (length signals.old) }
    requires signals { All (λ zone. zone.signal < length signals.old) zones.now.cell }
    ensures answer { IsMoveAnswerOn zones.now signals.old actor to.now arm.now result.answer }
    ensures change { result.change ≡ set_change signals.old (arm_at zones.now actor) (arm_moved arm.now (requests.Setpoint to.now) result.answer) (requests.Setpoint to.now) result.answer }
    ensures signals { signals.new ≡ with_outputs signals.old (outputs_set (arm_at zones.now actor) (arm_moved arm.now (requests.Setpoint to.now) result.answer) (requests.Setpoint to.now) result.answer) }
{
    let Some(from) = arm else {
        return unchanged(Answer::Ok);
    };
    match zones.blocks(actor, from, to, signals) {
        Some(zone) => unchanged(Answer::Stopped(zone)),
        None => Outcome {
            answer: Answer::Given,
            change: set_all(signals, zones, actor, to),
        },
    }
}
