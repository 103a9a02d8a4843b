//! The tasks of the cell.

ghost use Rattle.std.specs.Prelude.{◌≡◌, [], codes, map, length, position, IfSome, ◌<◌, ◌≤◌};
ghost use Rattle.std.specs.List.{list_any, list_all};
ghost use Rattle.std.specs.Str.{str_eq_ignore_ascii_case};
ghost use Rattle.toml.specs.View.{view};
ghost use Rattle.rapid_model.specs.ScriptData.{is_file_name, most_tasks};
ghost use Rattle.cell_script.specs.Keys.{at, number_at, each_row};
ghost use Rattle.cell_script.specs.Rows.{task_name_at, files_at, task_of};
ghost use Rattle.cell_script.specs.Parts.{needed_rows};
ghost use Rattle.cell_script.specs.Gives.{Gives, view_keys};

use crate::arm::arm_in;
use crate::fault::ScriptFault;
use crate::keys::{TableKeys, table_at};
use crate::list::{rows_at, texts_at};
use crate::name::{is_same_name, name_at};
use crate::plain::text_at;
use rapid_limits::{LONGEST_FILE_NAME, MOST_MODULES, MOST_TASKS, MOST_TASKS_AT_FIRST};
use rapid_model::{FileName, NameText, ScriptRule, ScriptTask, Sequence};
use std::alloc::Global;
use toml::Value;

/// The tasks, in script order: at least one, up to the limit of the version.
pub(crate) fn tasks_in(
    alloc: Global,
    keys: &TableKeys<'_>,
    version: u32,
) -> Result<Vec<ScriptTask>, ScriptFault>
    ensures { Gives (λ tasks. tasks.items) result (needed_rows (view_keys keys.now) (codes "task") 1 (most_tasks version) (task_of version)) }
{
    let value = keys.needed("task")?;
    let rows = rows_at(keys, "task", 1, most_tasks(version), value)?;
    tasks_of(alloc, version, rows)
}

/// The most tasks of a script of this version.
fn most_tasks(version: u32) -> usize
    ensures { result ≡ most_tasks version }
{
    if version == 1 {
        MOST_TASKS_AT_FIRST
    } else {
        MOST_TASKS
    }
}

fn tasks_of(alloc: Global, version: u32, rows: &[Value]) -> Result<Vec<ScriptTask>, ScriptFault>
    ensures { Gives (λ tasks. tasks.items) result (each_row (task_of version) [] (map view rows.now)) }
{
    let mut tasks = Vec::new(alloc);
    for row in rows {
        let task = task_of(alloc, version, &tasks, row)?;
        tasks.push(task)?;
    }
    Ok(tasks)
}

#[tactic(auto, unfolding(crate::specs::Rows::task_of))]
fn task_of(
    alloc: Global,
    version: u32,
    before: &[ScriptTask],
    value: &Value,
) -> Result<ScriptTask, ScriptFault>
    ensures { Gives (λ task. task) result (task_of version before.now (view value.now)) }
{
    let keys = table_at("task", before.len(), value)?;
    let name = task_name_at(&keys, "name", before, keys.needed("name")?)?;
    let modules = files_at(alloc, &keys, "modules", keys.needed("modules")?)?;
    let task = match arm_in(alloc, &keys, version)? {
        Some(arm) => ScriptTask {
            name,
            modules,
            arm: Some(arm.start),
            axes: arm.axes,
        },
        None => ScriptTask {
            name,
            modules,
            arm: None,
            axes: 0,
        },
    };
    keys.only(&["name", "modules", "arm"], task)
}

/// The name of a task: not another task's.
fn task_name_at(
    keys: &TableKeys<'_>,
    key: &str,
    others: &[ScriptTask],
    value: &Value,
) -> Result<NameText, ScriptFault>
    ensures { Gives (λ name. name) result (task_name_at (at (view_keys keys.now) key.now) (map (λ task. task.name) others.now) (view value.now)) }
{
    let name = name_at(keys, key, value)?;
    if is_task(name.bytes(), others) {
        return Err(keys.broken(key, ScriptRule::Twice));
    }
    Ok(name)
}

/// Whether a task has this name.
fn is_task(name: &[u8], tasks: &[ScriptTask]) -> bool
    ensures { result ≡ list_any (λ task. str_eq_ignore_ascii_case name.now task.name) tasks.now }
{
    tasks.iter().any(|task| is_same_name(name, &task.name))
}

/// The number of the task that a text refers to.
pub(crate) fn task_at(
    keys: &TableKeys<'_>,
    key: &str,
    tasks: &[ScriptTask],
    value: &Value,
) -> Result<u32, ScriptFault>
    requires { length tasks.now ≤ MOST_TASKS }
    ensures { Gives (λ number. number) result (number_at (at (view_keys keys.now) key.now) (map (λ task. task.name) tasks.now) (view value.now)) }
{
    let text = text_at(keys, key, value)?;
    match find_task(text.as_bytes(), tasks) {
        Some(number) => Ok(number as u32),
        None => Err(keys.broken(key, ScriptRule::NoSuch)),
    }
}

fn find_task(name: &[u8], tasks: &[ScriptTask]) -> Option<usize>
    ensures bound { IfSome result (λ number. number < length tasks.now) }
    ensures found { result ≡ position (λ task. str_eq_ignore_ascii_case name.now task.name) tasks.now }
{
    tasks.iter().position(|task| is_same_name(name, &task.name))
}

/// The files of a task's modules: at least one, up to the limit; no name is empty or too long.
fn files_at(
    alloc: Global,
    keys: &TableKeys<'_>,
    key: &str,
    value: &Value,
) -> Result<Sequence<FileName>, ScriptFault>
    ensures { Gives (λ files. files) result (files_at (at (view_keys keys.now) key.now) (view value.now)) }
{
    let files = texts_at(alloc, keys, key, value)?;
    if 1 <= files.len() && files.len() <= MOST_MODULES && are_file_names(&files) {
        Ok(Sequence::from_vec(files))
    } else {
        Err(keys.broken(key, ScriptRule::Range))
    }
}

fn are_file_names(files: &[FileName]) -> bool
    ensures { result ≡ list_all is_file_name files.now }
{
    files.iter().all(|file| is_file_name(file))
}

fn is_file_name(file: &FileName) -> bool
    ensures { result ≡ is_file_name file.now }
{
    (1..=LONGEST_FILE_NAME).contains(&file.as_str().len())
}
