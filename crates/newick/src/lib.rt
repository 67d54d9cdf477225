// The reader of Newick text. A first pass without recursion judges the text and counts its nodes; only a text that is known to be
// right is then read into a table slice and a tape slice.
#![tactic(auto)]

ghost use Rattle.std.specs.Prelude.{◌≡◌, IfOk};
ghost use Rattle.refusal.specs.Number.{number_of};
ghost use Rattle.newick.specs.Read.{NewickRead, answer_of, refusal, nodes_of};

mod judge;
mod label;
mod rows;

use judge::count_nodes;
use refusal::Refusal;
use rows::{Reached, list};

// A longer text is refused.
const MOST_BYTES: usize = 16384;

const MOST_NODES: usize = 1024;

// The count of nodes of a text that is accepted, by the slices' lengths.
#[tactic(auto, unfolding(crate::specs::Read::refusal))]
fn accepted_nodes(text: &[u8], table: usize, tapes: usize) -> Result<usize, Refusal>
    ensures number { number_of result ≡ refusal text.now table tapes }
    ensures nodes { IfOk result (λ nodes. nodes_of text.now ≡ nodes) }
{
    if text.len() > MOST_BYTES {
        return Err(Refusal::NotNewick);
    }
    let nodes = count_nodes(text).ok_or(Refusal::NotNewick)?;
    if nodes > MOST_NODES {
        return Err(Refusal::TooManyNodes);
    }
    if table < 2 * nodes || tapes < 2 * nodes {
        return Err(Refusal::OutputRoom);
    }
    Ok(nodes)
}

// Reads a Newick text, and gives the count of its nodes. Where it is accepted, the nodes are numbered parent first, then the
// children's subtrees left to right; each node's first child and next sibling stand in `table`, and its label, low word and high word,
// in `tapes`; entries past 2n are untouched. A refusal changes neither slice.
pub fn read_newick(text: &[u8], table: &mut [u16], tapes: &mut [u16]) -> Result<u16, Refusal>
    ensures { NewickRead text.now table.old tapes.old (answer_of result) table.new tapes.new }
{
    let nodes = accepted_nodes(text, table.len(), tapes.len())?;
    list(text, Reached { at: 0, node: 0 }, table, tapes);
    Ok(nodes as u16)
}
