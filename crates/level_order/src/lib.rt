// The level-order numbering. The nodes wait in a queue, the fields NODE of the positions from p up to `tail`: each is taken in turn, and
// its children are put behind the others.
#![tactic(auto)]

ghost use Rattle.std.specs.Prelude.{◌≡◌, ◌+◌, ◌*◌, ◌≤◌, ◌<◌, length};
ghost use Rattle.tree.specs.Table.{nodes};
ghost use Rattle.tree.specs.Levels.{children_of};
ghost use Rattle.level_order.specs.Appending.{queued, settled, Appended};
ghost use Rattle.level_order.specs.Numbered.{Accepted, NumberedFrom};
ghost use Rattle.level_order.specs.Spaced.{table_of};

pub mod by_name;
pub mod field;
pub mod spaced_tree;

use by_name::{get, put};
use field::Field;
use spaced_tree::SpacedTree;
use tree::Tree;

// Puts node c, a child of position p, at position `tail`.
fn queue(work: &mut [i32], p: usize, tail: usize, c: usize)
    requires parent { p < 1024 }
    requires node { c < 1024 }
    requires room { 16 * (tail + 1) ≤ length work.old }
    ensures { work.new ≡ queued work.old p tail c }
{
    put(work, tail, Field::Node, c as i32);
    put(work, tail, Field::Parent, p as i32);
}

// Puts the children of node v, which is at position p, at the positions from `tail` on, and says where the queue ends now.
fn append(tree: Tree<'_>, work: &mut [i32], p: usize, v: usize, tail: usize) -> usize
    requires position { p < nodes tree.entries.now }
    requires node { v < nodes tree.entries.now }
    requires children { tail + length (children_of tree.entries.now v) ≤ nodes tree.entries.now }
    requires room { 16 * nodes tree.entries.now ≤ length work.old }
    ensures { Appended tree.entry.entries.now p v tail work.old result work.new }
{
    let mut end = tail;
    let mut next = tree.first_child(v);
    while let Some(c) = next {
        queue(work, p, end, c);
        end += 1;
        next = tree.next_sibling(c);
    }
    end
}

// Writes what is known of position p once its children are queued: they stand from `first` on, `count` of them. It needs `need` from the
// position before it.
fn settle(work: &mut [i32], p: usize, first: usize, count: usize, need: u16)
    requires position { p < 1024 }
    requires first { first ≤ 1024 }
    requires count { count ≤ 1024 }
    requires room { 16 * (p + 1) ≤ length work.old }
    ensures { work.new ≡ settled work.old p first count need }
{
    put(work, p, Field::First, first as i32);
    put(work, p, Field::Count, count as i32);
    put(work, p, Field::Need, i32::from(need));
    put(work, p, Field::Ancestor, p as i32);
    put(work, p, Field::Shift, 0);
    put(work, p, Field::Change, 0);
}

// Numbers the nodes of an accepted table in level order, with what each needs from the one before it. `reach` is how far the one before
// reaches: the separation and its half-width.
pub fn number(tree: &SpacedTree<'_>, work: &mut [i32])
    requires accepted { Accepted (table_of tree.now) tree.now.separation tree.now.widths.now }
    requires room { 16 * nodes (table_of tree.now) ≤ length work.old }
    ensures { NumberedFrom (table_of tree.now) tree.now.separation tree.now.widths.now work.old work.new }
{
    queue(work, 0, 0, 0);
    let mut tail = 1;
    let mut reach = tree.separation;
    for p in 0..tree.table.nodes() {
        let v = get(work, p, Field::Node) as usize;
        let end = append(tree.table, work, p, v, tail);
        let half = tree.widths[v];
        settle(work, p, tail, end - tail, reach + half);
        reach = tree.separation + half;
        tail = end;
    }
}
