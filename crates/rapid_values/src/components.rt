//! The components of the record types (RAPID Instructions, Functions and Data types: robjoint, extjoint, jointtarget,
//! speeddata, tasks).

ghost use Rattle.std.specs.Prelude.{◌≡◌, map};
ghost use Rattle.std.specs.Option.{option_map};
ghost use Rattle.std.specs.Str.{str_eq_ignore_ascii_case};
ghost use Rattle.rapid_values.specs.Components.{component_of, components};

use rapid_model::{PartName, Sort};

static ROB_JOINT: [(&[u8], PartName, Sort); 6] = [
    (b"rax_1", PartName::Axis(0), Sort::Num),
    (b"rax_2", PartName::Axis(1), Sort::Num),
    (b"rax_3", PartName::Axis(2), Sort::Num),
    (b"rax_4", PartName::Axis(3), Sort::Num),
    (b"rax_5", PartName::Axis(4), Sort::Num),
    (b"rax_6", PartName::Axis(5), Sort::Num),
];

static EXT_JOINT: [(&[u8], PartName, Sort); 6] = [
    (b"eax_a", PartName::Axis(6), Sort::Num),
    (b"eax_b", PartName::Axis(7), Sort::Num),
    (b"eax_c", PartName::Axis(8), Sort::Num),
    (b"eax_d", PartName::Axis(9), Sort::Num),
    (b"eax_e", PartName::Axis(10), Sort::Num),
    (b"eax_f", PartName::Axis(11), Sort::Num),
];

static JOINT_TARGET: [(&[u8], PartName, Sort); 2] = [
    (b"robax", PartName::Robax, Sort::RobJoint),
    (b"extax", PartName::Extax, Sort::ExtJoint),
];

static SPEED_DATA: [(&[u8], PartName, Sort); 4] = [
    (b"v_tcp", PartName::SpeedPart(0), Sort::Num),
    (b"v_ori", PartName::SpeedPart(1), Sort::Num),
    (b"v_leax", PartName::SpeedPart(2), Sort::Num),
    (b"v_reax", PartName::SpeedPart(3), Sort::Num),
];

static TASKS: [(&[u8], PartName, Sort); 1] = [(b"taskname", PartName::Taskname, Sort::Text)];

/// The component of a type with this name, case-insensitively: which part of a value it is, and its type. None exactly
/// if the type has no such component (RAPID Instructions, Functions and Data types: robjoint, extjoint, jointtarget,
/// speeddata, tasks). Axes are numbered from 0, so `eax_a` is 6, and the parts of a speed from 0.
pub fn component(sort: Sort, name: &[u8]) -> Option<(PartName, Sort)>
    ensures { result ≡ option_map (λ c. (c.part, c.sort)) (component_of name.now (components sort)) }
{
    match sort {
        Sort::RobJoint => row_of(&ROB_JOINT, name),
        Sort::ExtJoint => row_of(&EXT_JOINT, name),
        Sort::JointTarget => row_of(&JOINT_TARGET, name),
        Sort::SpeedData => row_of(&SPEED_DATA, name),
        Sort::Tasks => row_of(&TASKS, name),
        _ => None,
    }
}

/// The part and the type in the first row of a table with this name, case-insensitively.
fn row_of(rows: &[(&[u8], PartName, Sort)], name: &[u8]) -> Option<(PartName, Sort)>
    ensures { result ≡ option_map (λ c. (c.part, c.sort)) (component_of name.now (map (λ row. record { name = row.0.now; part = row.1; sort = row.2 }) rows.now)) }
{
    for (spelling, part, sort) in rows {
        if is_spelled(spelling, name) {
            return Some((*part, *sort));
        }
    }
    None
}

/// Whether a name has this spelling, case-insensitively.
fn is_spelled(spelling: &[u8], name: &[u8]) -> bool
    ensures { result ≡ str_eq_ignore_ascii_case spelling.now name.now }
{
    spelling.eq_ignore_ascii_case(name)
}

/// The types of a record type's components, in order; empty for other types.
pub fn component_sorts(sort: Sort) -> &'static [Sort]
    ensures { result.now ≡ map (λ c. c.sort) (components sort) }
{
    match sort {
        Sort::RobJoint | Sort::ExtJoint => &[Sort::Num; 6],
        Sort::JointTarget => &[Sort::RobJoint, Sort::ExtJoint],
        Sort::SpeedData => &[Sort::Num; 4],
        Sort::Tasks => &[Sort::Text],
        _ => &[],
    }
}
