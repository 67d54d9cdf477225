// Conditions 1 to 5 and 14 of a tree table, in time proportional to its length.
ghost use Rattle.std.specs.Prelude.{◌≡◌, false, ◌≤◌, ◌<◌, length};
ghost use Rattle.refusal.specs.Number.{number_of};
ghost use Rattle.tree.specs.Table.{none, nodes};
ghost use Rattle.tree.specs.WellFormed.{bad_length, Passed, table_number};
ghost use Rattle.tree.specs.Steps.{Unmarked, Room, Scanned, Pushed, Visited, Judged, entry_bad, name_repeated, name_missing};

use super::NONE;
use refusal::Refusal;

// A table of at most this many entries, and so of this many nodes, has small arrays: it does not pay for clearing large ones.
pub const SMALL_ENTRIES: usize = 128;

pub const SMALL_NODES: usize = 64;

pub const MOST_NODES: usize = 1024;

// How the entries name the nodes: whether some node is named twice; if none is, whether one is not named.
#[derive(Clone, Copy)]
pub struct Names {
    pub repeated: bool,
    pub missing: bool,
}

// Conditions 4 and 5, in one pass over the entries, or none where one of them meets condition 2. `named` marks the nodes that an entry named
// so far, and the root from the start; `names` counts those entries, and 1 for the root. Where none named a marked node, they are as many as
// the nodes that are named.
fn scan(table: &[u16], named: &mut [bool]) -> Option<Names>
    requires table_value { bad_length table.now ≡ false }
    requires unmarked { Unmarked (nodes table.now) named.old }
    ensures { Scanned table.now (entry_bad result) (name_repeated result) (name_missing result) }
{
    let n = table.len() / 2;
    named[0] = true;
    let mut names: usize = 1;
    let mut repeated = false;
    for entry in table {
        let e = *entry as usize;
        if e != 65535 {
            if n <= e {
                return None;
            }
            repeated = repeated | named[e];
            named[e] = true;
            names += 1;
        }
    }
    Some(Names {
        repeated,
        missing: names < n,
    })
}

// The same, with as many marks as the table needs.
fn scan_marked(table: &[u16]) -> Option<Names>
    requires { bad_length table.now ≡ false }
    ensures { Scanned table.now (entry_bad result) (name_repeated result) (name_missing result) }
{
    if table.len() <= SMALL_ENTRIES {
        let mut named = [false; SMALL_NODES];
        return scan(table, &mut named);
    }
    let mut named = [false; MOST_NODES];
    scan(table, &mut named)
}

// Puts an entry that names a node on the stack whose top is at `low`, and says where the top is now.
fn push(order: &mut [u16], low: usize, e: u16) -> usize
    requires low_nonzero { (e ≡ none → ⊥) → 0 < low }
    requires low_in_bounds { low ≤ length order.old }
    ensures { Pushed order.old low e result order.new }
{
    if e == NONE {
        return low;
    }
    order[low - 1] = e;
    low - 1
}

// Visits the nodes reached from node 0, each parent before its children's subtrees. From a node the way goes on to its first child, or else
// to its next sibling, or else to the node on the top of the stack. The nodes visited stand at the front of `order`, and those next siblings
// that are still to be visited on a stack at its end.
fn preorder(table: &[u16], order: &mut [u16]) -> usize
    requires passed { Passed table.now }
    requires order_len { length order.old ≡ nodes table.now }
    ensures { Visited table.now result order.new }
{
    let n = order.len();
    order[n - 1] = 0;
    let mut low = n - 1;
    let mut count: usize = 0;
    while low < n {
        let mut v = order[low];
        low += 1;
        while v != NONE {
            let row = 2 * (v as usize);
            let child = table[row];
            let sibling = table[row + 1];
            order[count] = v;
            count += 1;
            if child == NONE {
                v = sibling;
            } else {
                low = push(order, low, sibling);
                v = child;
            }
        }
    }
    count
}

// The first condition that holds, if one does. Where none does, `order` then begins with the table's nodes in preorder.
pub fn judge(table: &[u16], order: &mut [u16]) -> Result<(), Refusal>
    requires { Room table.now order.old }
    ensures { Judged table.now (number_of result) order.new }
{
    let entries = table.len();
    if entries % 2 == 1 || entries == 0 || 2048 < entries {
        return Err(Refusal::TableLength);
    }
    let Some(names) = scan_marked(table) else {
        return Err(Refusal::EntryOutOfRange);
    };
    if table[1] != NONE {
        return Err(Refusal::RootHasSibling);
    }
    if names.repeated {
        return Err(Refusal::NamedTwice);
    }
    if names.missing {
        return Err(Refusal::NotNamed);
    }
    let n = entries / 2;
    let reached = preorder(table, &mut order[..n]);
    if reached < n {
        return Err(Refusal::NotReached);
    }
    Ok(())
}

// The first condition that holds, if one does.
pub fn check(table: &[u16]) -> Result<(), Refusal>
    ensures { number_of result ≡ table_number table.now }
{
    if table.len() <= SMALL_ENTRIES {
        let mut order = [0u16; SMALL_NODES];
        return judge(table, &mut order);
    }
    let mut order = [0u16; MOST_NODES];
    judge(table, &mut order)
}
