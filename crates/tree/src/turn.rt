// The mirrored table, written row by row: a node's first child is its old last child, and each sibling points back to the one before it.
ghost use Rattle.std.specs.Prelude.{◌≡◌, ◌+◌, ◌*◌, ◌<◌, length};
ghost use Rattle.tree.specs.Table.{none, nodes};
ghost use Rattle.tree.specs.Operations.{mirrored};
ghost use Rattle.tree.specs.Steps.{last_child, pointed};

use super::{NONE, Tree};

// The last child of node v, found along its children from the first, or none.
fn last_child(tree: Tree<'_>, v: usize) -> u16
    requires { v < nodes tree.entries.now }
    ensures { result ≡ last_child tree.entry.entries.now v }
{
    let table = tree.entries;
    let mut next = table[2 * v];
    let mut found = next;
    while next != NONE {
        found = next;
        next = table[2 * (next as usize) + 1];
    }
    found
}

// Makes x the next sibling of e, if e is a node.
fn point(out: &mut [u16], e: u16, x: u16)
    requires { (e ≡ none → ⊥) → 2 * e + 1 < length out.old }
    ensures { out.new ≡ pointed e x out.old }
{
    if e != NONE {
        out[2 * (e as usize) + 1] = x;
    }
}

// Writes the mirrored table. The first child of each node becomes the last of its siblings.
pub fn turn(tree: Tree<'_>, out: &mut [u16])
    requires { length out.old ≡ length tree.entries.now }
    ensures { out.new ≡ mirrored tree.entry.entries.now }
{
    let table = tree.entries;
    out[1] = NONE;
    for v in 0..tree.nodes() {
        let row = 2 * v;
        let last = last_child(tree, v);
        out[row] = last;
        point(out, table[row], NONE);
        point(out, table[row + 1], v as u16);
    }
}
