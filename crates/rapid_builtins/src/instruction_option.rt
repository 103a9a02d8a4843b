use crate::Need;

/// An option of an instruction (RAPID Instructions, Functions and Data types, arguments): the name after its backslash,
/// and what its value must be. A switch has no value.
#[derive(Clone, Copy, Debug, PartialEq, Eq)]
pub struct InstructionOption {
    /// The name as the manual spells it, in ASCII and without the backslash.
    pub name: &'static [u8],
    /// What the value after `:=` must be; `None` for a switch.
    pub value: Option<Need>,
}
