//! Whether two types are the same, and the types that predefined names are.

ghost use Rattle.std.specs.Prelude.{◌≡◌};
ghost use Rattle.data_scopes.specs.Sorts;

use rapid_model::{Predefined, Sort};

/// Whether two types are the same.
pub fn same_sort(a: Sort, b: Sort) -> bool
    ensures { result ≡ Sorts.same_sort a b }
{
    matches!(
        (a, b),
        (Sort::Num, Sort::Num)
            | (Sort::Bool, Sort::Bool)
            | (Sort::Text, Sort::Text)
            | (Sort::RobJoint, Sort::RobJoint)
            | (Sort::ExtJoint, Sort::ExtJoint)
            | (Sort::JointTarget, Sort::JointTarget)
            | (Sort::SpeedData, Sort::SpeedData)
            | (Sort::Tasks, Sort::Tasks)
            | (Sort::IntNum, Sort::IntNum)
            | (Sort::SyncIdent, Sort::SyncIdent)
            | (Sort::ShapeData, Sort::ShapeData)
            | (Sort::WzTemporary, Sort::WzTemporary)
            | (Sort::WzStationary, Sort::WzStationary)
    )
}

/// The type of data that a predefined name is; `None` exactly if it is not one (RAPID Instructions, Functions and Data
/// types; RAPID Kernel, alias data types, for errnum and dionum).
pub(crate) fn sort_of(name: Predefined) -> Option<Sort>
    ensures { result ≡ Sorts.sort_of name }
{
    match name {
        Predefined::Num => Some(Sort::Num),
        Predefined::ErrNum => Some(Sort::Num),
        Predefined::DioNum => Some(Sort::Num),
        Predefined::Bool => Some(Sort::Bool),
        Predefined::String => Some(Sort::Text),
        Predefined::RobJoint => Some(Sort::RobJoint),
        Predefined::ExtJoint => Some(Sort::ExtJoint),
        Predefined::JointTarget => Some(Sort::JointTarget),
        Predefined::SpeedData => Some(Sort::SpeedData),
        Predefined::Tasks => Some(Sort::Tasks),
        Predefined::IntNum => Some(Sort::IntNum),
        Predefined::SyncIdent => Some(Sort::SyncIdent),
        Predefined::ShapeData => Some(Sort::ShapeData),
        Predefined::WzTemporary => Some(Sort::WzTemporary),
        Predefined::WzStationary => Some(Sort::WzStationary),
        _ => None,
    }
}
