// The renumbered table. `old` has for each new number the old one, in preorder; `new` has for each old number the new one.
ghost use Rattle.std.specs.Prelude.{◌≡◌, ◌≤◌, ◌<◌, length};
ghost use Rattle.tree.specs.Table.{none, nodes};
ghost use Rattle.tree.specs.Forest.{tree_of, preorder};
ghost use Rattle.tree.specs.Operations.{renumbered};
ghost use Rattle.tree.specs.Steps.{OldNumbers, NewNumbers, renamed, Numbered};

use super::{NONE, Tree};

// Finds the new number of each old one.
fn invert(old: &[u16], new: &mut [u16])
    requires { OldNumbers old.now (length new.old) }
    ensures { NewNumbers old.now new.new }
{
    for (k, v) in old.iter().enumerate() {
        new[*v as usize] = k as u16;
    }
}

// An entry in the new numbers: none stays none.
fn rename(new: &[u16], e: u16) -> u16
    requires { (e ≡ none → ⊥) → e < length new.now }
    ensures { result ≡ renamed new.now e }
{
    if e == NONE {
        return NONE;
    }
    new[e as usize]
}

// Writes the rows in the order of the new numbers.
fn link(tree: Tree<'_>, old: &[u16], new: &[u16], out: &mut [u16])
    requires value { old.now ≡ preorder (tree_of tree.entries.now) }
    requires new_numbers { NewNumbers old.now new.now }
    requires table_in_bounds { nodes tree.entries.now ≤ length new.now }
    requires out_len { length out.old ≡ length tree.entries.now }
    ensures { out.new ≡ renumbered tree.entry.entries.now }
{
    let table = tree.entries;
    for (k, v) in old.iter().enumerate() {
        let row = 2 * (*v as usize);
        let child = rename(new, table[row]);
        let sibling = rename(new, table[row + 1]);
        out[2 * k] = child;
        out[2 * k + 1] = sibling;
    }
}

// Writes the renumbered table and the map.
pub fn relink(tree: Tree<'_>, old: &[u16], out: &mut [u16], map: &mut [u16])
    requires value { old.now ≡ preorder (tree_of tree.entries.now) }
    requires out_len { length out.old ≡ length tree.entries.now }
    requires map_len { length map.old ≡ length old.now }
    ensures { Numbered tree.entry.entries.now out.new map.new }
{
    let mut new = [0u16; 1024];
    invert(old, &mut new);
    map.copy_from_slice(old);
    link(tree, old, &new, out);
}
