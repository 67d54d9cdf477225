// The rows of a sheet, read in node order. The three slices stay parameters: each contract over a struct of them would have to say that it
// keeps its references.
ghost use Rattle.std.specs.Prelude.{◌≡◌, ◌+◌, ◌*◌, ◌<◌, length};
ghost use Rattle.sheet.specs.Layout.{first_word};
ghost use Rattle.sheet.specs.Read.{pair_at};
ghost use Rattle.sheet.specs.Walk.{OnRow};
ghost use Rattle.sheet.specs.Steps.{store_pair, Room, RowRead, RowsRead, BlockRead};

use super::layout::{FIRST_WORD, LAST_ROW_WORD};
use super::walk::{RowPlace, first_row, next_row};
use blocks::{block_at, word};

// Copies two words of a block, from word `from` on, to the pair of entries numbered `pair`.
fn copy_pair(block: &[u8], from: usize, entries: &mut [u16], pair: usize)
    requires from_in_bounds { 2 * (from + 1) + 1 < length block.now }
    requires pair_in_bounds { 2 * pair + 1 < length entries.old }
    ensures { entries.new ≡ store_pair entries.old pair (pair_at block.now from) }
{
    let first = word(block, from);
    let second = word(block, from + 1);
    entries[2 * pair] = first;
    entries[2 * pair + 1] = second;
}

// Reads a node's row.
fn read_row(file: &[u8], at: RowPlace, table: &mut [u16], tapes: &mut [u16], widths: &mut [u16])
    requires on_row { OnRow at }
    requires room { Room (at.node + 1) file.now table.old tapes.old widths.old }
    ensures { RowRead file.now at.node table.old tapes.old widths.old table.new tapes.new widths.new }
{
    let block = block_at(file, at.block);
    let node = at.node;
    copy_pair(block, at.word, table, node);
    copy_pair(block, at.word + 2, tapes, node);
    widths[node] = word(block, at.word + 4);
}

// Reads the rows of a block from its first one on, and gives the row after them. The block's last row is read after the loop, so that the
// loop stays in the block; the first one's word is given anew, so that the rows are counted without a division.
fn read_block(
    file: &[u8],
    from: RowPlace,
    nodes: u16,
    table: &mut [u16],
    tapes: &mut [u16],
    widths: &mut [u16],
) -> RowPlace
    requires on_row { (OnRow from) × (from.word ≡ first_word) × (from.node < nodes) }
    requires room { Room nodes file.now table.old tapes.old widths.old }
    requires rows_read { RowsRead file.now from.node table.old tapes.old widths.old table.old tapes.old widths.old }
    ensures { BlockRead file.now from nodes table.old tapes.old widths.old result table.new tapes.new widths.new }
{
    let last = usize::from(nodes) - 1;
    let mut at = RowPlace {
        node: from.node,
        block: from.block,
        word: FIRST_WORD,
    };
    while at.node < last && at.word < LAST_ROW_WORD {
        read_row(file, at, table, tapes, widths);
        at = next_row(at);
    }
    read_row(file, at, table, tapes, widths);
    next_row(at)
}

// Reads the rows of all nodes.
pub fn read_rows(file: &[u8], nodes: u16, table: &mut [u16], tapes: &mut [u16], widths: &mut [u16])
    requires { Room nodes file.now table.old tapes.old widths.old }
    ensures { RowsRead file.now nodes table.old tapes.old widths.old table.new tapes.new widths.new }
{
    let mut at = first_row();
    while at.node < usize::from(nodes) {
        at = read_block(file, at, nodes, table, tapes, widths);
    }
}
