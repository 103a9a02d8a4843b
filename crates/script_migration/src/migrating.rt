ghost use Rattle.std.specs.Prelude.{◌≡◌, IfErr, IfOk, IfSome, OnOk, string_bytes};
ghost use Rattle.toml.specs.View.{table_view};
ghost use Rattle.cell_script.specs.ScriptOf.{FaultOf, IsTable};
ghost use Rattle.script_migration.specs.Migrated.{IsWritten, Migrates, with_version_2};

use crate::levels::table_fits;
use cell_script::{ScriptFault, read_script};
use std::alloc::{AllocError, Global};
use toml::{Table, Value};

/// How deep TOML is read. A script nests four levels: the table, an array of tables, one of these, and an array in it.
const LEVELS: u32 = 80;

/// The same script in version 2, as TOML: the text is read as the script's table with `version = 2`. A script of version
/// 2 is printed too. Comments and layout are not kept, and the text may be longer than the old one.
pub fn migrate_script(alloc: Global, text: &[u8]) -> Result<String, ScriptFault>
    ensures migrated { IfOk result (λ printed. Migrates text.now (string_bytes printed)) }
    // The key and the rule, exactly if the text is no script.
    ensures refused { IfErr result (FaultOf text.now) }
{
    let _script = read_script(alloc, text)?;
    match printed(alloc, text) {
        Some(printed) => Ok(printed),
        None => Err(ScriptFault::Memory),
    }
}

/// The table of a script's text, printed with its version set to 2. `None` if memory runs out.
fn printed(alloc: Global, text: &[u8]) -> Option<String>
    ensures { IfSome result (λ printed. IsWritten text.now (string_bytes printed)) }
{
    let mut table = table_of(alloc, text)?;
    match set_version(alloc, &mut table) {
        Ok(()) => printed_table(alloc, &table),
        Err(_) => None,
    }
}

/// The table that TOML reads. `None` if the text is no TOML or memory runs out.
fn table_of(alloc: Global, text: &[u8]) -> Option<Table>
    ensures { IfSome result (λ table. IsTable text.now (table_view table)) }
{
    let Ok(text) = std::str::from_utf8(text) else {
        return None;
    };
    match toml::table_from_str(alloc, text) {
        Ok(table) => Some(table),
        Err(_) => None,
    }
}

/// The table as TOML. `None` if it nests too deep or memory runs out.
fn printed_table(alloc: Global, table: &Table) -> Option<String>
    ensures { IfSome result (λ printed. IsTable (string_bytes printed) (table_view table.now)) }
{
    if !table_fits(table, LEVELS) {
        return None;
    }
    match toml::table_to_string(alloc, table) {
        Ok(printed) => Some(printed),
        Err(_) => None,
    }
}

/// Sets the version of a script's table to 2.
fn set_version(alloc: Global, table: &mut Table) -> Result<(), AllocError>
    ensures { OnOk result (table_view table.new ≡ with_version_2 (table_view table.old)) }
{
    let key = String::from_str(alloc, "version")?;
    match table.insert(key, Value::Integer(2)) {
        Ok(_) => Ok(()),
        Err(_) => Err(AllocError),
    }
}
