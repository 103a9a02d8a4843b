//! The cell's numbers in the trees.

ghost use Rattle.std.specs.Prelude.{◌≡◌, length, map};
ghost use Rattle.typed_trees.specs.Views.{view_tree};
ghost use Rattle.cell_assembly.specs.Made;
ghost use Rattle.cell_assembly.specs.Parts.{view_lists};

use typed_trees::Tree;

/// The cell's numbers of a tree's own persistents and meetings.
fn number(tree: &mut Tree, pers_of: Vec<u32>, meeting_of: Vec<u32>)
    ensures { view_tree tree.new ≡ Made.with_numbers (view_tree tree.old) pers_of.items meeting_of.items }
{
    tree.pers_of = pers_of;
    tree.meeting_of = meeting_of;
}

/// Gives each tree the cell's numbers of its own persistents and meetings. Allocates nothing.
pub(crate) fn number_trees(trees: &mut [Tree], pers_of: Vec<Vec<u32>>, meeting_of: Vec<Vec<u32>>)
    requires pers { length pers_of.items ≡ length trees.old }
    requires meetings { length meeting_of.items ≡ length trees.old }
    ensures { map view_tree trees.new ≡ Made.numbered (map view_tree trees.old) (view_lists pers_of) (view_lists meeting_of) }
{
    let mut pers_of = pers_of.into_iter();
    let mut meeting_of = meeting_of.into_iter();
    for tree in trees.iter_mut() {
        if let (Some(pers), Some(meetings)) = (pers_of.next(), meeting_of.next()) {
            number(tree, pers, meetings);
        }
    }
}
