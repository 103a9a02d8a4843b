ghost use Rattle.std.specs.Prelude.{◌≡◌, ◌+◌, ◌≤◌, ◌++◌, [], length};
ghost use Rattle.history_text.specs.Lines.{fate_line, fate_words, fault_name, fault_words};

use crate::rooms::{FATE_BYTES, FAULT_BYTES, LINE_BYTES, NAME_BYTES};
use arrayvec::ArrayString;
use rapid_model::{Fate, Fault, NameText};
use value_text::{push_count, push_name};

/// Writes `E TASK FATE`: Done, Exit, Held, Cut, or Fault and the fault's name, for Unhandled also its number. Takes no
/// memory.
pub fn write_fate(name: &NameText, fate: &Fate, line: &mut ArrayString<LINE_BYTES>)
    requires { line.old.bytes ≡ [] }
    ensures { line.new.bytes ≡ fate_line name.now fate.now }
{
    line.push_str("E ");
    push_name(name, line);
    line.push(' ');
    push_fate(*fate, line);
    line.push('\n');
}

/// Appends a fate.
pub(crate) fn push_fate(fate: Fate, line: &mut ArrayString<LINE_BYTES>)
    requires room { length line.old.bytes + FATE_BYTES ≤ LINE_BYTES }
    ensures text { line.new.bytes ≡ line.old.bytes ++ fate_words fate }
    ensures short { length line.new.bytes ≤ length line.old.bytes + FATE_BYTES }
{
    match fate {
        Fate::Done => line.push_str("Done"),
        Fate::Exit => line.push_str("Exit"),
        Fate::Fault(fault) => {
            line.push_str("Fault ");
            push_fault(fault, line);
        }
        Fate::Held => line.push_str("Held"),
        Fate::Cut => line.push_str("Cut"),
    }
}

/// Appends the fault's name, and the number of an unhandled error.
fn push_fault(fault: Fault, line: &mut ArrayString<LINE_BYTES>)
    requires room { length line.old.bytes + FAULT_BYTES ≤ LINE_BYTES }
    ensures text { line.new.bytes ≡ line.old.bytes ++ fault_words fault }
    ensures short { length line.new.bytes ≤ length line.old.bytes + FAULT_BYTES }
{
    line.push_str(name_of(fault));
    if let Fault::Unhandled(number) = fault {
        line.push(' ');
        push_count(usize::from(number), line);
    }
}

/// The name of a fault.
pub(crate) fn name_of(fault: Fault) -> &'static str
    ensures name { result.now ≡ fault_name fault }
    ensures short { length result.now ≤ NAME_BYTES }
{
    match fault {
        Fault::NumRange => "NumRange",
        Fault::IndexRange => "IndexRange",
        Fault::DepthLimit => "DepthLimit",
        Fault::NoReturn => "NoReturn",
        Fault::RaiseRange => "RaiseRange",
        Fault::SignalValue => "SignalValue",
        Fault::TaskName => "TaskName",
        Fault::MoveInTrap => "MoveInTrap",
        Fault::JointRange => "JointRange",
        Fault::Speed => "Speed",
        Fault::ZoneStop => "ZoneStop",
        Fault::ZoneShape => "ZoneShape",
        Fault::ZoneFull => "ZoneFull",
        Fault::ZoneUsed => "ZoneUsed",
        Fault::NoZone => "NoZone",
        Fault::ExtAxis => "ExtAxis",
        Fault::TrapFlood => "TrapFlood",
        Fault::TiedOutput => "TiedOutput",
        Fault::Unhandled(_) => "Unhandled",
    }
}
