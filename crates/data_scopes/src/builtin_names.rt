//! The predefined names, put into a scope.

ghost use Rattle.std.specs.Prelude.{◌≡◌, map, OnOk, IfErr};
ghost use Rattle.data_scopes.specs.Shared.{declare_predefined, declare_rows};
ghost use Rattle.data_scopes.specs.declared.meant.Meant.TheVariants as meants;
ghost use Rattle.rule_checks.specs.declared.fault.TypeFault.TheVariants.{Memory};

use crate::meant::Meant;
use name_tables::NameTable;
use rapid_builtins::{function_rows, instruction_rows, predefined_rows};
use rapid_model::{Function, Instruction, Predefined};
use rule_checks::TypeFault;

/// Declares the predefined names.
pub(crate) fn declare_predefined(scope: &mut NameTable<Meant>) -> Result<(), TypeFault>
    ensures ok { OnOk result (scope.new ≡ declare_predefined scope.old) }
    ensures err { IfErr result (λ e. e ≡ Memory) }
{
    declare_instructions(instruction_rows(), scope)?;
    declare_functions(function_rows(), scope)?;
    declare_types_and_data(predefined_rows(), scope)
}

/// Declares these instructions.
#[tactic(auto, unfolding(crate::specs::Shared::declare_rows))]
fn declare_instructions(
    rows: &[(&[u8], Instruction)],
    scope: &mut NameTable<Meant>,
) -> Result<(), TypeFault>
    ensures ok { OnOk result (scope.new ≡ declare_rows meants.Instruction (map (λ row. (row.0.now, row.1)) rows.now) scope.old) }
    ensures err { IfErr result (λ e. e ≡ Memory) }
{
    for (name, instruction) in rows {
        scope.enter(name, Meant::Instruction(*instruction))?;
    }
    Ok(())
}

/// Declares these functions.
#[tactic(auto, unfolding(crate::specs::Shared::declare_rows))]
fn declare_functions(
    rows: &[(&[u8], Function)],
    scope: &mut NameTable<Meant>,
) -> Result<(), TypeFault>
    ensures ok { OnOk result (scope.new ≡ declare_rows meants.Function (map (λ row. (row.0.now, row.1)) rows.now) scope.old) }
    ensures err { IfErr result (λ e. e ≡ Memory) }
{
    for (name, function) in rows {
        scope.enter(name, Meant::Function(*function))?;
    }
    Ok(())
}

/// Declares these types and data.
#[tactic(auto, unfolding(crate::specs::Shared::declare_rows))]
fn declare_types_and_data(
    rows: &[(&[u8], Predefined)],
    scope: &mut NameTable<Meant>,
) -> Result<(), TypeFault>
    ensures ok { OnOk result (scope.new ≡ declare_rows meants.Predefined (map (λ row. (row.0.now, row.1)) rows.now) scope.old) }
    ensures err { IfErr result (λ e. e ≡ Memory) }
{
    for (name, predefined) in rows {
        scope.enter(name, Meant::Predefined(*predefined))?;
    }
    Ok(())
}
