ghost use Rattle.std.specs.Prelude.{◌≡◌, ◌≤◌, length};
ghost use Rattle.value_text.specs.ValueText.{sort_text};

use crate::rooms::WORD_BYTES;
use rapid_model::Sort;

/// The name of a type, in lower case (RAPID Instructions, Functions and Data types).
pub fn sort_name(sort: Sort) -> &'static str
    ensures name { result.now ≡ sort_text sort }
    ensures short { length result.now ≤ WORD_BYTES }
{
    match sort {
        Sort::Num => "num",
        Sort::Bool => "bool",
        Sort::Text => "string",
        Sort::RobJoint => "robjoint",
        Sort::ExtJoint => "extjoint",
        Sort::JointTarget => "jointtarget",
        Sort::SpeedData => "speeddata",
        Sort::Tasks => "tasks",
        Sort::IntNum => "intnum",
        Sort::SyncIdent => "syncident",
        Sort::ShapeData => "shapedata",
        Sort::WzTemporary => "wztemporary",
        Sort::WzStationary => "wzstationary",
    }
}
