// Well-formed tables, as a type.
ghost use Rattle.std.specs.Prelude.{◌≡◌, ◌<◌, IfOk};
ghost use Rattle.refusal.specs.Number.{number_of};
ghost use Rattle.tree.specs.Table.{nodes, named, first_child, next_sibling};
ghost use Rattle.tree.specs.WellFormed.{table_number};

use super::{NONE, judge};
use refusal::Refusal;

// A table that is not refused: each of its nodes is reached from node 0 on one way.
#[derive(Clone, Copy)]
pub struct Tree<'a> {
    pub entries: &'a [u16],
    pub ghost well_formed: { table_number entries.now ≡ 0 },
}

// The node that an entry names, if it names one.
pub fn named(entry: u16) -> Option<usize>
    ensures { result ≡ named entry }
{
    if entry == NONE {
        return None;
    }
    Some(entry as usize)
}

impl<'a> Tree<'a> {
    // The tree of a table, or the first condition that holds.
    pub fn new(table: &'a [u16]) -> Result<Tree<'a>, Refusal>
        ensures number { number_of result ≡ table_number table.now }
        ensures same_table { IfOk result (λ tree. tree.entries.now ≡ table.now) }
    {
        judge::check(table)?;
        Ok(Tree { entries: table })
    }

    pub fn nodes(self) -> usize
        ensures { result ≡ nodes self.entry.entries.now }
    {
        self.entries.len() / 2
    }

    pub fn first_child(self, v: usize) -> Option<usize>
        requires { v < nodes self.entries.now }
        ensures { result ≡ named (first_child self.entry.entries.now v) }
    {
        named(self.entries[2 * v])
    }

    pub fn next_sibling(self, v: usize) -> Option<usize>
        requires { v < nodes self.entries.now }
        ensures { result ≡ named (next_sibling self.entry.entries.now v) }
    {
        named(self.entries[2 * v + 1])
    }
}
