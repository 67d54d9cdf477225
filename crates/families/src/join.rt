// Joins one child to its elder siblings, level by level down the contours.
ghost use Rattle.std.specs.Prelude.{◌<◌};
ghost use Rattle.level_order.specs.Spaced.{table_of};
ghost use Rattle.families.specs.Joining.{spacing_of, Rowed, Waiting, Joined};

use descent::{Elders, begin, descend, ended, meet, thread, widened};
use level_order::by_name::put;
use level_order::field::Field;
use level_order::spaced_tree::SpacedTree;

// Joins a child to its elder siblings, and says which child is the default now. Of the tree only the extra space is read, which is added where
// the walk met a conflict; `end`, the position past the last sibling, stands in the contract alone. On the top level the child starts at the
// distance that it needs: nothing is met there.
pub fn join(tree: &SpacedTree<'_>, work: &mut [i32], elders: Elders, end: usize) -> usize
    requires rowed { Rowed (table_of tree.now) (spacing_of tree.now) elders.first elders.child end elders.default work.old }
    requires waiting { Waiting (table_of tree.now) (spacing_of tree.now) elders.first end elders.child work.old }
    requires inside { elders.child < end }
    ensures { Joined (table_of tree.now) (spacing_of tree.now) elders.first elders.child end result work.old work.new }
{
    let mut stand = begin(work, elders);
    let start = stand.left;
    'contours: loop {
        if ended(work, stand) {
            break 'contours;
        }
        stand = descend(work, stand);
        stand.moved += meet(work, stand, elders);
    }
    stand.moved = widened(stand.moved, tree.extra);
    let default = thread(work, stand, elders);
    put(work, elders.child, Field::Place, start + stand.moved);
    default
}
