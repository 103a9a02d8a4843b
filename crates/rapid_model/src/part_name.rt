/// A part of a value: the whole value, a component, or a component of a component (RAPID Instructions, Functions and
/// Data types: robjoint, extjoint, jointtarget, speeddata, tasks). Axes are numbered from 0: 0 to 5 are `rax_1` to
/// `rax_6`, 6 to 11 are `eax_a` to `eax_f`. The components of a speed are also numbered from 0.
#[derive(Clone, Copy, Debug, PartialEq, Eq)]
pub enum PartName {
    Whole,
    Robax,
    Extax,
    Axis(u8),
    SpeedPart(u8),
    Taskname,
}
