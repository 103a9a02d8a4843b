ghost use Rattle.std.specs.Prelude.{◌≡◌, ◌^◌, ◌<◌, drop};
ghost use Rattle.history_pages.specs.Requests.{order_form, said_in, told_by};

use crate::tail_form::TailForm;
use crate::value_form::ValueForm;
use crate::words::{Words, nums_from, shape_from, text_from};
use rapid_model::{Answer, Fate, Path, Request, Watched};
use rapid_num::Joints;

/// Everything in a request except its words. A Look keeps the number in its answer: how many changes there were, or
/// which trap is to run. 12 bytes.
#[derive(Clone, Copy, Debug)]
pub(crate) enum RequestForm {
    Look {
        told: u32,
    },
    ReadP {
        path: Path,
        pers: u32,
    },
    WriteP {
        form: ValueForm,
        path: Path,
        pers: u32,
    },
    TestSet {
        path: Path,
        pers: u32,
    },
    ReadS {
        signal: u32,
    },
    WriteS {
        value: bool,
        signal: u32,
    },
    Position,
    Setpoint,
    Connect {
        old: u8,
        trap: u32,
    },
    OrderSignal {
        number: u8,
        single: bool,
        value: bool,
        signal: u32,
    },
    OrderPers {
        number: u8,
        single: bool,
        pers: u32,
    },
    Sleep {
        number: u8,
    },
    Watch {
        number: u8,
    },
    Delete {
        number: u8,
    },
    Disable,
    Enable,
    Leave,
    ZoneSet {
        old: u8,
        temporary: bool,
        inside: bool,
    },
    ZoneTie {
        old: u8,
        temporary: bool,
        inside: bool,
        value: bool,
        signal: u32,
    },
    ZoneOn {
        zone: u8,
    },
    ZoneOff {
        zone: u8,
    },
    ZoneFree {
        zone: u8,
    },
    Arrive {
        tasks: u16,
        meeting: u32,
    },
    Hold {
        seen: u32,
    },
    Rise,
    Input {
        index: u32,
    },
    Say {
        count: u8,
        tail: TailForm,
    },
    End {
        fate: Fate,
    },
}

impl RequestForm {
    ghost use Rattle.history_pages.specs.Packing.{told_in};
    ghost use Rattle.history_pages.specs.Requests.{is_lined_form, request_form, request_in, told_by};

    pub(crate) fn of(request: &Request, answer: &Answer) -> RequestForm
        ensures { result ≡ request_form request.now answer.now }
    {
        match request {
            Request::Look => RequestForm::Look {
                told: told_by(answer),
            },
            Request::ReadP { pers, path } => RequestForm::ReadP {
                path: *path,
                pers: *pers,
            },
            Request::WriteP { pers, path, value } => RequestForm::WriteP {
                form: ValueForm::of(value),
                path: *path,
                pers: *pers,
            },
            Request::TestSet { pers, path } => RequestForm::TestSet {
                path: *path,
                pers: *pers,
            },
            Request::ReadS { signal } => RequestForm::ReadS { signal: *signal },
            Request::WriteS { signal, value } => RequestForm::WriteS {
                value: *value,
                signal: *signal,
            },
            Request::Position => RequestForm::Position,
            Request::Setpoint { .. } => RequestForm::Setpoint,
            Request::Connect { old, trap } => RequestForm::Connect {
                old: *old,
                trap: *trap,
            },
            Request::Order { number, on, single } => order_form(*number, *on, *single),
            Request::Sleep { number } => RequestForm::Sleep { number: *number },
            Request::Watch { number } => RequestForm::Watch { number: *number },
            Request::Delete { number } => RequestForm::Delete { number: *number },
            Request::Disable => RequestForm::Disable,
            Request::Enable => RequestForm::Enable,
            Request::Leave => RequestForm::Leave,
            Request::ZoneSet {
                old,
                temporary,
                shape,
            } => RequestForm::ZoneSet {
                old: *old,
                temporary: *temporary,
                inside: shape.inside,
            },
            Request::ZoneTie {
                old,
                temporary,
                shape,
                signal,
                value,
            } => RequestForm::ZoneTie {
                old: *old,
                temporary: *temporary,
                inside: shape.inside,
                value: *value,
                signal: *signal,
            },
            Request::ZoneOn { zone } => RequestForm::ZoneOn { zone: *zone },
            Request::ZoneOff { zone } => RequestForm::ZoneOff { zone: *zone },
            Request::ZoneFree { zone } => RequestForm::ZoneFree { zone: *zone },
            Request::Arrive { meeting, tasks } => RequestForm::Arrive {
                tasks: *tasks,
                meeting: *meeting,
            },
            Request::Hold { seen } => RequestForm::Hold { seen: *seen },
            Request::Rise => RequestForm::Rise,
            Request::Input { index } => RequestForm::Input { index: *index },
            Request::Say { text, tail } => RequestForm::Say {
                count: text.bytes().len() as u8,
                tail: TailForm::of(tail),
            },
            Request::End { fate } => RequestForm::End { fate: *fate },
        }
    }

    /// The number in the answer to a Look.
    pub(crate) fn told(self) -> u32
        ensures { result ≡ told_in self }
    {
        match self {
            RequestForm::Look { told } => told,
            _ => 0,
        }
    }

    /// Whether it is the form of a setpoint or of a text to the operator.
    pub(crate) fn is_lined(self) -> bool
        ensures { result ≡ is_lined_form self }
    {
        matches!(self, RequestForm::Setpoint | RequestForm::Say { .. })
    }

    /// The request of this form whose words begin at an index; `None` if the words spell none.
    pub(crate) fn request(self, words: &Words, from: usize) -> Option<Request>
        requires { from < 2 ^ 32 }
        ensures { result ≡ request_in self (drop from words.now.items) }
    {
        match self {
            RequestForm::Look { .. } => Some(Request::Look),
            RequestForm::ReadP { path, pers } => Some(Request::ReadP { pers, path }),
            RequestForm::WriteP { form, path, pers } => {
                let value = form.value(words, from)?;
                Some(Request::WriteP { pers, path, value })
            }
            RequestForm::TestSet { path, pers } => Some(Request::TestSet { pers, path }),
            RequestForm::ReadS { signal } => Some(Request::ReadS { signal }),
            RequestForm::WriteS { value, signal } => Some(Request::WriteS { signal, value }),
            RequestForm::Position => Some(Request::Position),
            RequestForm::Setpoint => {
                let axis = nums_from(words, from)?;
                Some(Request::Setpoint {
                    to: Joints { axis },
                })
            }
            RequestForm::Connect { old, trap } => Some(Request::Connect { old, trap }),
            RequestForm::OrderSignal {
                number,
                single,
                value,
                signal,
            } => {
                let on = Watched::Signal { signal, value };
                Some(Request::Order { number, on, single })
            }
            RequestForm::OrderPers {
                number,
                single,
                pers,
            } => {
                let on = Watched::Pers { pers };
                Some(Request::Order { number, on, single })
            }
            RequestForm::Sleep { number } => Some(Request::Sleep { number }),
            RequestForm::Watch { number } => Some(Request::Watch { number }),
            RequestForm::Delete { number } => Some(Request::Delete { number }),
            RequestForm::Disable => Some(Request::Disable),
            RequestForm::Enable => Some(Request::Enable),
            RequestForm::Leave => Some(Request::Leave),
            RequestForm::ZoneSet {
                old,
                temporary,
                inside,
            } => {
                let shape = shape_from(words, from, inside)?;
                Some(Request::ZoneSet {
                    old,
                    temporary,
                    shape,
                })
            }
            RequestForm::ZoneTie {
                old,
                temporary,
                inside,
                value,
                signal,
            } => {
                let shape = shape_from(words, from, inside)?;
                Some(Request::ZoneTie {
                    old,
                    temporary,
                    shape,
                    signal,
                    value,
                })
            }
            RequestForm::ZoneOn { zone } => Some(Request::ZoneOn { zone }),
            RequestForm::ZoneOff { zone } => Some(Request::ZoneOff { zone }),
            RequestForm::ZoneFree { zone } => Some(Request::ZoneFree { zone }),
            RequestForm::Arrive { tasks, meeting } => Some(Request::Arrive { meeting, tasks }),
            RequestForm::Hold { seen } => Some(Request::Hold { seen }),
            RequestForm::Rise => Some(Request::Rise),
            RequestForm::Input { index } => Some(Request::Input { index }),
            RequestForm::Say { count, tail } => said(words, from, count, tail),
            RequestForm::End { fate } => Some(Request::End { fate }),
        }
    }
}

/// The number in the answer to a Look; 0 if there is none.
fn told_by(answer: &Answer) -> u32
    ensures { result ≡ told_by answer.now }
{
    match answer {
        Answer::Go { seen } => *seen,
        Answer::Trap { trap, .. } => *trap,
        _ => 0,
    }
}

fn order_form(number: u8, on: Watched, single: bool) -> RequestForm
    ensures { result ≡ order_form number on single }
{
    match on {
        Watched::Signal { signal, value } => RequestForm::OrderSignal {
            number,
            single,
            value,
            signal,
        },
        Watched::Pers { pers } => RequestForm::OrderPers {
            number,
            single,
            pers,
        },
    }
}

/// The text of that many characters for the operator, with its tail before it; `None` if the words spell none.
fn said(words: &Words, from: usize, count: u8, tail: TailForm) -> Option<Request>
    requires { from < 2 ^ 32 }
    ensures { result ≡ said_in count tail (drop from words.now.items) }
{
    let text = text_from(words, from + tail.count(), count)?;
    let tail = tail.tail(words, from)?;
    Some(Request::Say { text, tail })
}
