// Draws the children of one node as a row: each child is joined to its elder siblings, then the gathered moves are carried out.
ghost use Rattle.level_order.specs.Spaced.{table_of};
ghost use Rattle.families.specs.Joining.{spacing_of};
ghost use Rattle.families.specs.Families.{Ready, FamilyDrawn, Begun, AllJoined};

use super::join::join;
use descent::by_name::position;
use descent::{Elders, past};
use level_order::by_name::{get, put};
use level_order::field::Field;
use level_order::spaced_tree::SpacedTree;
use shifts::execute;

// Joins the children of one node after the first, each to those before it.
fn others(tree: &SpacedTree<'_>, work: &mut [i32], first: usize, end: usize)
    requires { Begun (table_of tree.now) (spacing_of tree.now) first end work.old }
    ensures { AllJoined (table_of tree.now) (spacing_of tree.now) first end work.old work.new }
{
    let mut default = first;
    for child in first + 1..end {
        let elders = Elders {
            first,
            child,
            default,
        };
        default = join(tree, work, elders, end);
    }
}

// Places the children of position p and stores the contours of its subtree.
pub fn family(tree: &SpacedTree<'_>, work: &mut [i32], p: usize)
    requires { Ready (table_of tree.now) (spacing_of tree.now) p work.old }
    ensures { FamilyDrawn (table_of tree.now) (spacing_of tree.now) p work.old work.new }
{
    let first = position(work, p, Field::First);
    let end = past(work, p);
    put(work, first, Field::Place, 0);
    others(tree, work, first, end);
    execute(work, first, end);
    put(work, p, Field::Left, get(work, first, Field::Place));
    put(work, p, Field::Right, get(work, end - 1, Field::Place));
}
