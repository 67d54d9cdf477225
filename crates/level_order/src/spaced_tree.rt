// A tree and the distances that it is drawn at.
ghost use Rattle.std.specs.Prelude.{ℕ, ◌≤◌};
ghost use Rattle.level_order.specs.Numbered.{apart};

use tree::Tree;

// A well-formed table with what its nodes need: the separation, their half-widths, and the extra space of significant nodes. Both have bounds,
// by which no place leaves 32 bits.
#[derive(Clone, Copy)]
pub struct SpacedTree<'a> {
    pub table: Tree<'a>,
    pub separation: u16,
    pub widths: &'a [u16],
    pub extra: u16,
    pub ghost high: { (p q : ℕ) → apart table.entries.now separation widths.now p q ≤ 1536 },
    pub ghost little: { extra ≤ 1024 },
}
