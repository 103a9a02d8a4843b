ghost use Rattle.std.specs.Prelude.{◌≡◌, ◌≤◌, length};
ghost use Rattle.rapid_model.specs.RuleNames.{rule_name};

/// The rules for a cell script.
#[derive(Clone, Copy, Debug, PartialEq, Eq)]
pub enum ScriptRule {
    /// The text is not valid TOML.
    NotToml,
    /// A required key is missing.
    NoKey,
    /// A value has the wrong TOML type for its key.
    Kind,
    /// The table has no such key.
    UnknownKey,
    /// A number, a length or a text outside the range of the key, or a low bound that is not below its high bound.
    Range,
    /// Not a valid name: not an identifier, or a reserved word, or, for a signal, a predefined name.
    Name,
    /// A name given twice.
    Twice,
    /// A name that does not exist, or is of the wrong kind for its key.
    NoSuch,
    /// Only one of two keys that go together, or not exactly one of `num`, `bool` and `text`.
    Pair,
}

impl ScriptRule {
    /// The name of the rule in error messages, at most 10 bytes.
    pub fn name(self) -> &'static [u8]
        ensures same { result.now ≡ rule_name self }
        ensures short { length result.now ≤ 10 }
    {
        match self {
            ScriptRule::NotToml => b"NotToml",
            ScriptRule::NoKey => b"NoKey",
            ScriptRule::Kind => b"Kind",
            ScriptRule::UnknownKey => b"UnknownKey",
            ScriptRule::Range => b"Range",
            ScriptRule::Name => b"Name",
            ScriptRule::Twice => b"Twice",
            ScriptRule::NoSuch => b"NoSuch",
            ScriptRule::Pair => b"Pair",
        }
    }
}
