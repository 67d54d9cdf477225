// The layout of a sheet that is set with TreeTeX: its two conditions, and then the steps of every layout.
#![tactic(auto)]

ghost use Rattle.std.specs.Prelude.{◌≡◌, ◌<◌, is_some};
ghost use Rattle.tree.specs.Table.{nodes};
ghost use Rattle.layout.specs.Operation.{slices, answer_of};
ghost use Rattle.treetex.specs.TreeTeX.{has_three, three_children, TreeTeX};

use refusal::Refusal;
use tree::Tree;

const MOST_EXTRA: u16 = 1024;

// The third child of node v, if there is one: the next sibling of the first child's next sibling.
fn third_child(tree: Tree<'_>, v: usize) -> Option<usize>
    requires { v < nodes tree.entries.now }
    ensures { is_some result ≡ has_three tree.entry.entries.now v }
{
    let first = tree.first_child(v)?;
    let second = tree.next_sibling(first)?;
    tree.next_sibling(second)
}

// Whether some node has three or more children.
fn three_children(tree: Tree<'_>) -> bool
    ensures { result ≡ three_children tree.entry.entries.now }
{
    (0..tree.nodes()).any(|v| third_child(tree, v).is_some())
}

// As the layout, where no node has three children: `extra` is added once between the subtrees of every significant node.
pub fn layout_treetex(
    table: &[u16],
    separation: u16,
    widths: &[u16],
    extra: u16,
    places: &mut [i32],
    levels: &mut [u16],
    measured: &mut [u16],
    work: &mut [i32],
) -> Result<layout::Drawn, Refusal>
    ensures { TreeTeX table.now separation widths.now extra (slices places.old levels.old measured.old work.old) (answer_of result) (slices places.new levels.new measured.new work.new) }
{
    let tree = Tree::new(table)?;
    if three_children(tree) {
        return Err(Refusal::ThreeChildren);
    }
    layout::check_distances(table, separation, widths)?;
    if MOST_EXTRA < extra {
        return Err(Refusal::ExtraSpace);
    }
    layout::check_room(table, places, levels, measured, work)?;
    Ok(layout::draw(
        table, separation, widths, extra, places, levels, measured, work,
    ))
}
