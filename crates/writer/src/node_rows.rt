// The rows of a sheet.
ghost use Rattle.std.specs.Prelude.{◌*◌, ◌≤◌, length};
ghost use Rattle.tree.specs.Table.{nodes};

use tree::Tree;

// What the rows of a sheet hold: its tree, and its nodes' tape numbers, two words each, and half-widths.
#[derive(Clone, Copy)]
pub struct Rows<'a> {
    pub tree: Tree<'a>,
    pub tapes: &'a [u16],
    pub widths: &'a [u16],
    pub ghost enough: { (2 * nodes tree.entries.now ≤ length tapes.now) × (nodes tree.entries.now ≤ length widths.now) },
}
