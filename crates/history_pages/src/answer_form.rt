ghost use Rattle.std.specs.Prelude.{◌≡◌, ◌^◌, ◌<◌, drop};

use crate::value_form::ValueForm;
use crate::words::{Words, nums_from};
use rapid_model::{Answer, ZoneName};
use rapid_num::Joints;

/// Everything in an answer except its words, and the number that a Look is told, which is in the Look's form. 3 bytes.
#[derive(Clone, Copy, Debug)]
pub(crate) enum AnswerForm {
    Ok,
    Go,
    Trap { number: u8 },
    Flood,
    Val(ValueForm),
    Yes(bool),
    Bit(bool),
    At,
    Given,
    Stopped(ZoneName),
    Number(u8),
    Already,
    Unknown,
    NoMore,
    ZoneUsed,
    ZoneFull,
    NoZone,
    Tied,
    Met,
    Apart,
}

impl AnswerForm {
    ghost use Rattle.history_pages.specs.Answers.{answer_form, answer_in};

    pub(crate) fn of(answer: &Answer) -> AnswerForm
        ensures { result ≡ answer_form answer.now }
    {
        match answer {
            Answer::Ok => AnswerForm::Ok,
            Answer::Go { .. } => AnswerForm::Go,
            Answer::Trap { number, .. } => AnswerForm::Trap { number: *number },
            Answer::Flood => AnswerForm::Flood,
            Answer::Val(value) => AnswerForm::Val(ValueForm::of(value)),
            Answer::Yes(met) => AnswerForm::Yes(*met),
            Answer::Bit(bit) => AnswerForm::Bit(*bit),
            Answer::At(_) => AnswerForm::At,
            Answer::Given => AnswerForm::Given,
            Answer::Stopped(zone) => AnswerForm::Stopped(*zone),
            Answer::Number(number) => AnswerForm::Number(*number),
            Answer::Already => AnswerForm::Already,
            Answer::Unknown => AnswerForm::Unknown,
            Answer::NoMore => AnswerForm::NoMore,
            Answer::ZoneUsed => AnswerForm::ZoneUsed,
            Answer::ZoneFull => AnswerForm::ZoneFull,
            Answer::NoZone => AnswerForm::NoZone,
            Answer::Tied => AnswerForm::Tied,
            Answer::Met => AnswerForm::Met,
            Answer::Apart => AnswerForm::Apart,
        }
    }

    /// The answer of this form, with the number that a Look was told, whose words begin at an index; `None` if the
    /// words spell none.
    pub(crate) fn answer(self, told: u32, words: &Words, from: usize) -> Option<Answer>
        requires { from < 2 ^ 32 }
        ensures { result ≡ answer_in self told (drop from words.now.items) }
    {
        match self {
            AnswerForm::Ok => Some(Answer::Ok),
            AnswerForm::Go => Some(Answer::Go { seen: told }),
            AnswerForm::Trap { number } => Some(Answer::Trap { number, trap: told }),
            AnswerForm::Flood => Some(Answer::Flood),
            AnswerForm::Val(form) => Some(Answer::Val(form.value(words, from)?)),
            AnswerForm::Yes(met) => Some(Answer::Yes(met)),
            AnswerForm::Bit(bit) => Some(Answer::Bit(bit)),
            AnswerForm::At => {
                let axis = nums_from(words, from)?;
                Some(Answer::At(Joints { axis }))
            }
            AnswerForm::Given => Some(Answer::Given),
            AnswerForm::Stopped(zone) => Some(Answer::Stopped(zone)),
            AnswerForm::Number(number) => Some(Answer::Number(number)),
            AnswerForm::Already => Some(Answer::Already),
            AnswerForm::Unknown => Some(Answer::Unknown),
            AnswerForm::NoMore => Some(Answer::NoMore),
            AnswerForm::ZoneUsed => Some(Answer::ZoneUsed),
            AnswerForm::ZoneFull => Some(Answer::ZoneFull),
            AnswerForm::NoZone => Some(Answer::NoZone),
            AnswerForm::Tied => Some(Answer::Tied),
            AnswerForm::Met => Some(Answer::Met),
            AnswerForm::Apart => Some(Answer::Apart),
        }
    }
}
