// All ordered trees of 1 to 8 nodes: the tree at a place of the list of them.
#![tactic(auto)]

ghost use Rattle.std.specs.Prelude.{◌≡◌, ◌*◌, length};
ghost use Rattle.refusal.specs.Number.{number_of};
ghost use Rattle.tree.specs.Forest.{table_of};
ghost use Rattle.small_trees.specs.SmallTrees.{tree_at, refusal, SmallTree};
ghost use Rattle.small_trees.specs.Steps.{InList};

pub mod levels;
pub mod links;

use levels::{levels_at, ways};
use links::link;
use refusal::Refusal;

const MOST_NODES: u16 = 8;

// What a call is refused for, by the output's length.
#[tactic(auto, using(crate::proofs::Numbers::number_20))]
fn judge(nodes: u16, place: u16, table: usize) -> Result<(), Refusal>
    ensures { number_of result ≡ refusal nodes place table }
{
    if nodes == 0 || nodes > MOST_NODES {
        return Err(Refusal::SmallTreeNodes);
    }
    let n = nodes as usize;
    if place >= ways(n - 1, 0) {
        return Err(Refusal::SmallTreePlace);
    }
    if table < 2 * n {
        return Err(Refusal::OutputRoom);
    }
    Ok(())
}

// Fills a table with the tree at a place, by way of its levels.
fn write_tree(place: u16, levels: &mut [usize], table: &mut [u16])
    requires in_list { InList place levels.old }
    requires table_len { length table.old ≡ 2 * length levels.old }
    ensures { table.new ≡ table_of (length levels.old) (tree_at (length levels.old) place) }
{
    levels_at(place, levels);
    link(levels, table);
}

// Writes the table of the tree at a place of the list of the trees of so many nodes, numbered parent first, then the children's subtrees
// left to right; entries past 2n are untouched. A refusal changes nothing.
pub fn small_tree(nodes: u16, place: u16, table: &mut [u16]) -> Result<(), Refusal>
    ensures { SmallTree nodes place table.old (number_of result) table.new }
{
    judge(nodes, place, table.len())?;
    let n = nodes as usize;
    let mut levels = [0usize; 8];
    write_tree(place, &mut levels[..n], &mut table[..2 * n]);
    Ok(())
}
