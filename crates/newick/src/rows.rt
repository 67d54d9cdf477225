// The rows of a text that is known to be right. A list consists of subtrees, and a subtree may hold a list: two functions that call
// each other, as deep as the tree is.
ghost use Rattle.newick.specs.Steps.{SubtreeHere, ListHere, SubtreeRead, ListRead};

use super::label::{read_label, store_pair};
use tree::NONE;

// Where reading has come to: the place in the text, and the number of the next node.
#[derive(Clone, Copy)]
pub struct Reached {
    pub at: usize,
    pub node: usize,
}

// Reads the subtree that stands at a place; its root has the next number.
#[cycle(list_subtree)]
fn subtree(text: &[u8], from: Reached, table: &mut [u16], tapes: &mut [u16]) -> Reached
    requires { SubtreeHere text.now from.at from.node table.old tapes.old }
    ensures { SubtreeRead text.now from.at from.node table.old tapes.old result table.new tapes.new }
{
    let Reached { at, node } = from;
    if text[at] == b'(' {
        let child = Reached {
            at: at + 1,
            node: node + 1,
        };
        store_pair(table, node, child.node as u16, NONE);
        let inner = list(text, child, table, tapes);
        let end = read_label(text, inner.at + 1, node, tapes);
        Reached {
            at: end,
            node: inner.node,
        }
    } else {
        store_pair(table, node, NONE, NONE);
        let end = read_label(text, at, node, tapes);
        Reached {
            at: end,
            node: node + 1,
        }
    }
}

// Reads the subtrees that stand at a place, up to the byte that ends their list; the first one's root has the next number.
#[cycle(list_subtree)]
pub fn list(text: &[u8], mut from: Reached, table: &mut [u16], tapes: &mut [u16]) -> Reached
    requires { ListHere text.now from.at from.node table.old tapes.old }
    ensures { ListRead text.now from.at from.node table.old tapes.old result table.new tapes.new }
{
    loop {
        let read = subtree(text, from, table, tapes);
        if text[read.at] != b',' {
            return read;
        }
        table[2 * from.node + 1] = read.node as u16;
        from = Reached {
            at: read.at + 1,
            node: read.node,
        };
    }
}
