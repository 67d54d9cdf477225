// Tree tables: check, mirror, renumber.
#![tactic(auto)]

ghost use Rattle.refusal.specs.Number.{number_of, given};
ghost use Rattle.tree.specs.Operations.{CheckTable, Mirror, Renumber};
ghost use Rattle.tree.specs.Steps.{Room};

mod judge;
mod relink;
mod turn;
mod well_formed;

use judge::{MOST_NODES, SMALL_ENTRIES, SMALL_NODES};
use refusal::Refusal;
pub use well_formed::{Tree, named};

// The entry that names no node.
pub const NONE: u16 = 65535;

// Whether a table is well-formed: how many nodes it has, or the first condition that holds.
pub fn check_table(table: &[u16]) -> Result<u16, Refusal>
    ensures { CheckTable table.now (number_of result) (given 0 result) }
{
    let tree = Tree::new(table)?;
    Ok(tree.nodes() as u16)
}

// The table with every node's children in reverse order, numbers kept.
pub fn mirror(table: &[u16], out: &mut [u16]) -> Result<(), Refusal>
    ensures { Mirror table.now out.old (number_of result) out.new }
{
    let tree = Tree::new(table)?;
    let entries = table.len();
    if out.len() < entries {
        return Err(Refusal::OutputRoom);
    }
    turn::turn(tree, &mut out[..entries]);
    Ok(())
}

// The tree numbered parent first, then the children's subtrees left to right, and in `map` for each new number the old one.
pub fn renumber(table: &[u16], out: &mut [u16], map: &mut [u16]) -> Result<(), Refusal>
    ensures { Renumber table.now out.old map.old (number_of result) out.new map.new }
{
    if table.len() <= SMALL_ENTRIES {
        let mut order = [0u16; SMALL_NODES];
        return renumber_in(table, &mut order, out, map);
    }
    let mut order = [0u16; MOST_NODES];
    renumber_in(table, &mut order, out, map)
}

// The same, with room for the nodes in preorder.
fn renumber_in(
    table: &[u16],
    order: &mut [u16],
    out: &mut [u16],
    map: &mut [u16],
) -> Result<(), Refusal>
    requires { Room table.now order.old }
    ensures { Renumber table.now out.old map.old (number_of result) out.new map.new }
{
    judge::judge(table, order)?;
    let entries = table.len();
    let n = entries / 2;
    if out.len() < entries || map.len() < n {
        return Err(Refusal::OutputRoom);
    }
    let tree = Tree { entries: table };
    relink::relink(tree, &order[..n], &mut out[..entries], &mut map[..n]);
    Ok(())
}
