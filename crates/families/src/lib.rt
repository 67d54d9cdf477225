// Draws every family, from the last position to the first.
#![tactic(auto)]

ghost use Rattle.tree.specs.Forest.{tree_of};
ghost use Rattle.tree.specs.Table.{nodes};
ghost use Rattle.level_order.specs.Numbered.{Numbered, Fresh};
ghost use Rattle.level_order.specs.Spaced.{table_of, apart_of};
ghost use Rattle.families.specs.Joining.{spacing_of};
ghost use Rattle.families.specs.Families.{FamiliesFrom};

mod family;
mod join;

use descent::by_name::position;
use descent::past;
use level_order::by_name::put;
use level_order::field::Field;
use level_order::spaced_tree::SpacedTree;

// Gives every position but the root's its offset from its parent, and the root its place 0.
pub fn families(tree: &SpacedTree<'_>, work: &mut [i32])
    requires numbered { Numbered (tree_of (table_of tree.now)) (apart_of tree.now) (nodes (table_of tree.now)) work.old }
    requires fresh { Fresh (nodes (table_of tree.now)) work.old }
    ensures { FamiliesFrom (table_of tree.now) (spacing_of tree.now) work.old work.new }
{
    for p in (0..tree.table.nodes()).rev() {
        if position(work, p, Field::First) < past(work, p) {
            family::family(tree, work, p);
        }
    }
    put(work, 0, Field::Place, 0);
}
