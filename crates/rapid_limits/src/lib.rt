//! Every limit of the language, of a cell and of a run, each defined once.
#![tactic(auto)]

/// The maximum size of a script, in bytes.
pub const SCRIPT_BYTES: usize = 262_144;

/// The maximum size of a module, in bytes.
pub const MODULE_BYTES: usize = 1_048_576;

/// The maximum size of a printed history that is read, in bytes.
pub const HISTORY_BYTES: usize = 33_554_432;

/// The maximum length of a name, in bytes (RAPID Kernel, identifiers).
pub const LONGEST_NAME: usize = 32;

/// The maximum length of a string, in characters.
pub const LONGEST_STRING: usize = 80;

/// The maximum length of a numerical literal, in bytes.
pub const LONGEST_LITERAL: usize = 30;

/// The maximum nesting depth of a module's forms.
pub const MOST_LEVELS: u32 = 64;

/// The maximum number of arguments of a call, options included (RAPID Kernel, procedure calls).
pub const MOST_ARGUMENTS: usize = 32;

/// The maximum number of elements of an array.
pub const LONGEST_ARRAY: u16 = 1_000;

/// The maximum number of values in the modules of a task; an array has one for each element.
pub const MOST_VALUES: usize = 20_000;

/// The maximum number of frames of a running task.
pub const MOST_FRAMES: usize = 32;

/// The maximum number of values in all frames of a running task.
pub const MOST_FRAME_VALUES: usize = 20_000;

/// The maximum number of interrupts of a task, which are numbered from 1.
pub const MOST_INTERRUPTS: usize = 64;

/// The maximum number of firings in a task's queue.
pub const LONGEST_QUEUE: usize = 1_024;

/// The maximum number of zones of an arm, which are numbered from 1.
pub const MOST_ZONES: usize = 10;

/// The number of axes of a robot. Any axes after them are external.
pub const ROBOT_AXES: usize = 6;

/// The maximum number of axes of an arm, external axes included.
pub const MOST_AXES: usize = 12;

/// The maximum absolute angle of a robot axis, in thousandths of a degree.
pub const ROBOT_REACH: u64 = 720_000;

/// The maximum absolute angle of an external axis, in thousandths of a degree.
pub const EXTERNAL_REACH: u64 = 100_000_000;

/// The maximum number of tasks of a cell.
pub const MOST_TASKS: usize = 16;

/// The maximum number of tasks of a version 1 script.
pub const MOST_TASKS_AT_FIRST: usize = 8;

/// The maximum number of modules of a task.
pub const MOST_MODULES: usize = 16;

/// The maximum number of module files of a cell.
pub const MOST_MODULE_FILES: usize = MOST_TASKS * MOST_MODULES;

/// The maximum length of the name of a module file, in bytes.
pub const LONGEST_FILE_NAME: usize = 255;

/// The maximum number of signals of a cell.
pub const MOST_SIGNALS: usize = 256;

/// The maximum number of zones that a script gives a cell.
pub const MOST_CELL_ZONES: usize = 16;

/// The maximum number of steps of an input script.
pub const MOST_INPUTS: usize = 10_000;

/// The maximum number of values that a script gives to persistents.
pub const MOST_PERS_VALUES: usize = 1_000;

/// The maximum number of steps of a run, and the maximum count in the gate of an input.
pub const MOST_STEPS: u32 = 1_000_000;

/// The newest version of a script. Version 2 has external axes and more tasks.
pub const NEWEST_VERSION: u32 = 3;

/// The number of steps of a run if the script gives none.
pub const DEFAULT_STEPS: u32 = 100_000;
