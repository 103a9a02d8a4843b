ghost use Rattle.std.specs.Prelude.{◌≡◌, ◌⊎◌, [], IfOk, IfErr, Some, None, map, position, filter, slice_get, option_map, codes, bytes_eq};
ghost use Rattle.command_words.specs.Words.{begins_with_minus, is_history, is_plain, is_wrong_option, places, plain_words, verb_of, action_of, has_history, history_name, asked, is_migrate, is_run, wrong_count, wrong_word, refused_place, script_name};
ghost use Rattle.command_words.specs.Picked.{is_kind};

use crate::moves::moves_of;
use std::convert::AsSlice;
use std::str;

/// What the command words ask for.
#[derive(Clone, Copy, Debug, PartialEq, Eq)]
pub enum Action {
    /// Checks whether the script and its modules are accepted.
    Check,
    /// Runs the cell round-robin on one thread and prints its run, with a line for each event if `full`.
    Round { full: bool },
    /// The same, with each task on its own thread.
    Run { full: bool },
    /// Prints the tables of the cell and each task's code.
    List,
    /// Runs the load cell round-robin, where each arm moves this many times, and prints a summary of the run.
    Load { moves: u32 },
    /// Checks whether a printed history is one that the cell can have.
    Audit,
    /// Prints the state of the cell after a printed history.
    State,
    /// Prints the script in version 2.
    Migrate,
    /// Runs the cell round-robin and prints how near each arm came to each of its cell zones.
    Clearance,
    /// Runs the cell round-robin and prints each event with the place of the statement that it belongs to.
    Trace,
}

/// The word of an action.
#[derive(Clone, Copy, Debug)]
pub(crate) enum Verb {
    Check,
    Round,
    Run,
    List,
    Load,
    Audit,
    State,
    Migrate,
    Clearance,
    Trace,
}

/// The action, and the name of the script's file; for `load`, the word of its number instead. For `audit` and `state` also
/// the name of the history's file, which is empty otherwise.
#[derive(Clone, Copy, Debug)]
pub struct Command<'a> {
    pub action: Action,
    pub script: &'a str,
    pub history: &'a str,
}

/// The action, its second word and its third, which is empty if it takes none, with their positions.
#[derive(Clone, Copy)]
pub(crate) struct Asked<'a> {
    pub action: Action,
    pub script: &'a [u8],
    pub script_at: usize,
    pub history: &'a [u8],
    pub history_at: usize,
}

/// What the command words ask for, or the position, from 0, of the refused word. Takes no memory.
pub fn read_words<W: AsSlice<u8>>(words: &[W]) -> Result<Command<'_>, usize>
    ensures taken { IfOk result (λ _. refused_place (map W.items words.now) ≡ None) }
    ensures action { IfOk result (λ command. asked (map W.items words.now) ≡ Some command.action) }
    ensures name { IfOk result (λ command. command.script.now ≡ script_name (map W.items words.now)) }
    ensures history { IfOk result (λ command. command.history.now ≡ history_name (map W.items words.now)) }
    ensures refused { IfErr result (λ place. refused_place (map W.items words.now) ≡ Some place) }
{
    match asked_words(words) {
        Ok(found) => {
            let Ok(script) = str::from_utf8(found.script) else {
                return Err(found.script_at);
            };
            match str::from_utf8(found.history) {
                Ok(history) => Ok(Command {
                    action: found.action,
                    script,
                    history,
                }),
                Err(_) => Err(found.history_at),
            }
        }
        Err(place) => Err(place),
    }
}

/// The action and its words, or the position of the word that is refused, whether or not they are text.
fn asked_words<W: AsSlice<u8>>(words: &[W]) -> Result<Asked<'_>, usize>
    ensures taken { IfOk result (λ _. wrong_word (map W.items words.now) ≡ None) }
    ensures action { IfOk result (λ found. asked (map W.items words.now) ≡ Some found.action) }
    ensures place { IfOk result (λ found. slice_get (places is_plain 0 (map W.items words.now)) 1 ≡ Some found.script_at) }
    ensures name { IfOk result (λ found. found.script.now ≡ script_name (map W.items words.now)) }
    ensures last { IfOk result (λ found. slice_get (places is_plain 0 (map W.items words.now)) 2 ≡ Some found.history_at ⊎ (found.history.now ≡ [])) }
    ensures history { IfOk result (λ found. found.history.now ≡ history_name (map W.items words.now)) }
    ensures refused { IfErr result (λ place. wrong_word (map W.items words.now) ≡ Some place) }
{
    if let Some(place) = option_place(words) {
        return Err(place);
    }
    if let Some((place, _)) = nth_word(words, true, 1) {
        return Err(place);
    }
    let Some((place, word)) = nth_word(words, false, 0) else {
        return Err(words.len());
    };
    let Some(verb) = verb_of(word) else {
        return Err(place);
    };
    let (script_at, script) = match second_word(words, verb) {
        Ok(second) => second,
        Err(place) => return Err(place),
    };
    let (history_at, history) = third_word(words);
    match action_of(verb, has_history(words), script) {
        Some(action) => Ok(Asked {
            action,
            script,
            script_at,
            history,
            history_at,
        }),
        None => Err(script_at),
    }
}

/// The second word of an action and its position; or the number of words if one is missing, or the position of the
/// first one too many.
fn second_word<W: AsSlice<u8>>(words: &[W], verb: Verb) -> Result<(usize, &[u8]), usize>
    ensures taken { IfOk result (λ _. wrong_count (Some verb) (map W.items words.now) ≡ None) }
    ensures place { IfOk result (λ found. slice_get (places is_plain 0 (map W.items words.now)) 1 ≡ Some found.0) }
    ensures word { IfOk result (λ found. slice_get (plain_words (map W.items words.now)) 1 ≡ Some found.1.now) }
    ensures refused { IfErr result (λ place. wrong_count (Some verb) (map W.items words.now) ≡ Some place) }
{
    let Some(second) = nth_word(words, false, 1) else {
        return Err(words.len());
    };
    let third = nth_word(words, false, 2);
    match verb {
        Verb::Audit | Verb::State => {
            if third.is_none() {
                return Err(words.len());
            }
            match nth_word(words, false, 3) {
                Some((more, _)) => Err(more),
                None => Ok(second),
            }
        }
        _ => match third {
            Some((more, _)) => Err(more),
            None => Ok(second),
        },
    }
}

/// The third word of an action and its position, or an empty word if there is none.
fn third_word<W: AsSlice<u8>>(words: &[W]) -> (usize, &[u8])
    ensures place { slice_get (places is_plain 0 (map W.items words.now)) 2 ≡ Some result.0 ⊎ (result.1.now ≡ []) }
    ensures word { result.1.now ≡ history_name (map W.items words.now) }
{
    match nth_word(words, false, 2) {
        Some(third) => third,
        None => (0, b""),
    }
}

/// Whether the words ask for `run`, refused or not: it is the first word other than `--history`. Takes no memory.
pub fn is_run<W: AsSlice<u8>>(words: &[W]) -> bool
    ensures { result ≡ is_run (map W.items words.now) }
{
    match nth_word(words, false, 0) {
        Some((_, word)) => word == b"run".as_slice(),
        None => false,
    }
}

/// The same for `migrate`.
pub fn is_migrate<W: AsSlice<u8>>(words: &[W]) -> bool
    ensures { result ≡ is_migrate (map W.items words.now) }
{
    match nth_word(words, false, 0) {
        Some((_, word)) => word == b"migrate".as_slice(),
        None => false,
    }
}

/// Whether `--history` is among the words.
fn has_history<W: AsSlice<u8>>(words: &[W]) -> bool
    ensures { result ≡ has_history (map W.items words.now) }
{
    nth_word(words, true, 0).is_some()
}

/// The position of the first word that looks like an option but is none.
fn option_place<W: AsSlice<u8>>(words: &[W]) -> Option<usize>
    ensures { result ≡ position is_wrong_option (map W.items words.now) }
{
    words
        .iter()
        .position(|word| is_wrong_option(word.as_slice()))
}

/// The word with this index among those that are `--history` or among the others, and its position.
fn nth_word<W: AsSlice<u8>>(words: &[W], histories: bool, index: usize) -> Option<(usize, &[u8])>
    ensures place { option_map (λ found. found.0) result ≡ slice_get (places (is_kind histories) 0 (map W.items words.now)) index }
    ensures word { option_map (λ found. found.1.now) result ≡ slice_get (filter (is_kind histories) (map W.items words.now)) index }
{
    let mut left = index;
    for (at, word) in words.iter().enumerate() {
        let bytes = word.as_slice();
        if is_kind(histories, bytes) {
            if left == 0 {
                return Some((at, bytes));
            }
            left -= 1;
        }
    }
    None
}

/// Whether the word is `--history`, or whether it is not.
fn is_kind(histories: bool, word: &[u8]) -> bool
    ensures { result ≡ is_kind histories word.now }
{
    if histories {
        is_history(word)
    } else {
        !is_history(word)
    }
}

fn is_history(word: &[u8]) -> bool
    ensures { result ≡ is_history word.now }
{
    word == b"--history".as_slice()
}

fn is_wrong_option(word: &[u8]) -> bool
    ensures { result ≡ is_wrong_option word.now }
{
    begins_with_minus(word) && !is_history(word)
}

fn begins_with_minus(word: &[u8]) -> bool
    ensures { result ≡ begins_with_minus word.now }
{
    match word.first() {
        Some(byte) => *byte == b'-',
        None => false,
    }
}

fn verb_of(word: &[u8]) -> Option<Verb>
    ensures { result ≡ verb_of word.now }
{
    if word == b"check".as_slice() {
        Some(Verb::Check)
    } else if word == b"round".as_slice() {
        Some(Verb::Round)
    } else if word == b"run".as_slice() {
        Some(Verb::Run)
    } else if word == b"list".as_slice() {
        Some(Verb::List)
    } else if word == b"load".as_slice() {
        Some(Verb::Load)
    } else if word == b"audit".as_slice() {
        Some(Verb::Audit)
    } else if word == b"state".as_slice() {
        Some(Verb::State)
    } else if word == b"migrate".as_slice() {
        Some(Verb::Migrate)
    } else if word == b"clearance".as_slice() {
        Some(Verb::Clearance)
    } else if word == b"trace".as_slice() {
        Some(Verb::Trace)
    } else {
        None
    }
}

/// The action of a verb and its second word.
fn action_of(verb: Verb, full: bool, second: &[u8]) -> Option<Action>
    ensures { result ≡ action_of verb full second.now }
{
    match verb {
        Verb::Check => Some(Action::Check),
        Verb::Round => Some(Action::Round { full }),
        Verb::Run => Some(Action::Run { full }),
        Verb::List => Some(Action::List),
        Verb::Load => moves_of(second).map(|moves| Action::Load { moves }),
        Verb::Audit => Some(Action::Audit),
        Verb::State => Some(Action::State),
        Verb::Migrate => Some(Action::Migrate),
        Verb::Clearance => Some(Action::Clearance),
        Verb::Trace => Some(Action::Trace),
    }
}
