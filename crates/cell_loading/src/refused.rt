ghost use Rattle.std.specs.Prelude.{◌≡◌};
ghost use Rattle.cell_loading.specs.Refusals.{status_of, file_of, module_rule_name};
ghost use Rattle.cell_loading.specs.declared.refused.Refused.TheVariants.{Memory};

use rapid_forms::SyntaxRule;
use rapid_lexer::{LexRule, Place};
use rapid_model::{ScriptRule, Text};
use rule_checks::TypeRule;
use std::alloc::{AllocError, AllocFailed};

/// The rules of a module.
#[derive(Clone, Copy, Debug, PartialEq, Eq)]
pub enum ModuleRule {
    /// The text does not consist of tokens.
    Lex(LexRule),
    /// The tokens do not form a module.
    Syntax(SyntaxRule),
    /// A rule of names and types.
    Type(TypeRule),
}

impl ModuleRule {
    /// The name of the rule, as refusals print it.
    pub fn name(self) -> &'static [u8]
        ensures { result.now ≡ module_rule_name self }
    {
        match self {
            ModuleRule::Lex(rule) => rule.name(),
            ModuleRule::Syntax(rule) => rule.name(),
            ModuleRule::Type(rule) => rule.name(),
        }
    }
}

/// Why a run was refused, or could not be printed. Files are numbered in the order in which they are read: 0 is the
/// script, the modules follow from 1, and a history is the last.
#[derive(Debug, Drop)]
pub enum Refused {
    /// The command word at this position, from 0, is wrong or missing.
    Words {
        place: usize,
    },
    /// The script breaks a rule at a key; the empty key is the whole script.
    Script {
        key: Text,
        rule: ScriptRule,
    },
    /// A module breaks a rule at a place.
    Module {
        file: u32,
        place: Place,
        rule: ModuleRule,
    },
    /// A file could not be read.
    Read {
        file: u32,
    },
    /// Not everything could be printed.
    Write,
    /// An allocation failed.
    Memory,
    /// A file has more bytes than its limit.
    TooLong {
        file: u32,
    },
    /// The first line, by its number from 1, with which the lines so far no longer start any history of the cell.
    History {
        line: u32,
    },
}

impl From<AllocError> for Refused {
    ghost from_gives = { λ _ refused. refused ≡ Memory };

    fn from(_error: AllocError) -> Refused {
        Refused::Memory
    }
}

impl<T: Drop> From<AllocFailed<T>> for Refused {
    ghost from_gives = { λ _ refused. refused ≡ Memory };

    fn from(_failed: AllocFailed<T>) -> Refused {
        Refused::Memory
    }
}

impl Refused {
    /// The status of a refused call.
    pub fn status(&self) -> u8
        ensures { result ≡ status_of self.now }
    {
        match self {
            Refused::Words { .. } => 2,
            Refused::Script { .. } => 3,
            Refused::Module { .. } => 4,
            Refused::Read { .. } => 5,
            Refused::Write => 6,
            Refused::Memory => 7,
            Refused::TooLong { .. } => 10,
            Refused::History { .. } => 11,
        }
    }

    /// The number of the file that the refusal is about.
    pub fn file(&self) -> Option<u32>
        ensures { result ≡ file_of self.now }
    {
        match self {
            Refused::Module { file, .. } | Refused::Read { file } | Refused::TooLong { file } => {
                Some(*file)
            }
            Refused::Words { .. }
            | Refused::Script { .. }
            | Refused::Write
            | Refused::Memory
            | Refused::History { .. } => None,
        }
    }
}
