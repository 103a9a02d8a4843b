ghost use Rattle.std.specs.Prelude.{◌≡◌, ℕ, ◌+◌, ◌≤◌, ◌<◌, ◌^◌, List, Option, None, Some, Ok, IfOk, IfErr, IfSome, option_map, length, All};
ghost use Rattle.outside.specs.Told.{Told, found, after_reads};
ghost use Rattle.cell_loading.specs.Files.{text_of, told_reads, IsLoadFault, IsUnread, GivesText};
ghost use Rattle.cell_loading.specs.Loaded.{names_in_turn, bytes_of, IsScriptIn, IsWithin, AreTexts};

use crate::refused::Refused;
use cell_script::{ScriptFault, read_script};
use outside::{Shelf, ShelfFault};
use rapid_limits::{MODULE_BYTES, SCRIPT_BYTES};
use rapid_model::Script;
use std::alloc::Global;

/// The texts of modules up to the first that could not be read, and why it could not, if there is one.
#[derive(Debug, Drop)]
pub struct Texts {
    pub texts: Vec<Vec<u8>>,
    pub failed: Option<Refused>,
}

/// The script in the file with this name, which is read first.
pub fn load_script<S: Shelf>(alloc: Global, shelf: &mut S, name: &str) -> Result<Script, Refused>
    ensures faults { S.faults shelf.old ≤ S.faults shelf.new }
    ensures told_after { S.told shelf.new ≡ option_map (after_reads 1) (S.told shelf.old) }
    ensures causes { IfErr result (IsLoadFault (S.faults shelf.old) (S.faults shelf.new)) }
    // It is what the read comes to by what the shelf reports,
    ensures told { IfSome (S.told shelf.old) (λ told. IsScriptIn (text_of 0 SCRIPT_BYTES (found told name.now)) result) }
    // and what some read comes to, whatever the shelf reports.
    ensures read { (gave : Option (List ℕ)) × IsScriptIn (text_of 0 SCRIPT_BYTES gave) result }
{
    let text = read_file(alloc, shelf, 0, SCRIPT_BYTES, name)?;
    script_of(alloc, text.as_slice())
}

/// The script that a text is.
pub fn script_of(alloc: Global, text: &[u8]) -> Result<Script, Refused>
    ensures script { IsScriptIn (Ok text.now) result }
    ensures causes { (old new : ℕ) → IfErr result (IsLoadFault old new) }
{
    match read_script(alloc, text) {
        Ok(script) => Ok(script),
        Err(ScriptFault::Rule { key, rule }) => Err(Refused::Script { key, rule }),
        Err(ScriptFault::Memory) => Err(Refused::Memory),
    }
}

/// The texts of the modules in the files with these names, in order: the first file after the script's has number 1.
/// Reading stops at the first one that cannot be read.
pub fn load_texts<S: Shelf>(alloc: Global, shelf: &mut S, modules: &[&str]) -> Texts
    requires { length modules.now < 2 ^ 31 }
    ensures faults { S.faults shelf.old ≤ S.faults shelf.new }
    ensures causes { IfSome result.failed (IsLoadFault (S.faults shelf.old) (S.faults shelf.new)) }
    ensures within { All IsWithin result.texts.items }
    ensures few { length result.texts.items ≤ length modules.now }
    ensures whole { result.failed ≡ None → length result.texts.items ≡ length modules.now }
    ensures unread { IfSome result.failed (λ refused. IsUnread (length result.texts.items + 1) refused × (length result.texts.items < length modules.now)) }
    // In terms of what was reported before the script was read.
    ensures told { (told : Told) → S.told shelf.old ≡ Some (after_reads 1 told) → AreTexts (told_reads told) 1 (names_in_turn modules.now) (bytes_of result.texts.items) result.failed }
    ensures told_after { result.failed ≡ None → (told : Told) → S.told shelf.old ≡ Some (after_reads 1 told) → S.told shelf.new ≡ Some (after_reads (length modules.now + 1) told) }
{
    let mut texts = Vec::new(alloc);
    for (k, name) in modules.iter().enumerate() {
        let text = match read_file(alloc, shelf, k as u32 + 1, MODULE_BYTES, name) {
            Ok(text) => text,
            Err(refused) => {
                return Texts {
                    texts,
                    failed: Some(refused),
                };
            }
        };
        match texts.push(text) {
            Ok(()) => {}
            Err(_) => {
                return Texts {
                    texts,
                    failed: Some(Refused::Memory),
                };
            }
        }
    }
    Texts {
        texts,
        failed: None,
    }
}

/// The bytes of a file, or why it could not be read.
pub fn read_file<S: Shelf>(
    alloc: Global,
    shelf: &mut S,
    file: u32,
    limit: usize,
    name: &str,
) -> Result<Vec<u8>, Refused>
    ensures faults { S.faults shelf.old ≤ S.faults shelf.new }
    ensures told_after { S.told shelf.new ≡ option_map (after_reads 1) (S.told shelf.old) }
    // A failed read was counted.
    ensures causes { IfErr result (IsLoadFault (S.faults shelf.old) (S.faults shelf.new)) }
    ensures unread { IfErr result (IsUnread file) }
    ensures within { IfOk result (λ bytes. length bytes.items ≤ limit) }
    ensures gives { IfSome (S.told shelf.old) (λ told. GivesText (text_of file limit (found told name.now)) result) }
{
    let mut bytes = Vec::new(alloc);
    match shelf.read(alloc, name, limit, &mut bytes) {
        Ok(()) => Ok(bytes),
        Err(ShelfFault::Failed) => Err(Refused::Read { file }),
        Err(ShelfFault::TooLong) => Err(Refused::TooLong { file }),
        Err(ShelfFault::Memory) => Err(Refused::Memory),
    }
}
