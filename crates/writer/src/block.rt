// One block: words stored in it, the low byte first, and the block closed. A block stays a slice here: what a part of the output that is
// lent as an array leaves behind is told by Rattle's own names alone.
ghost use Rattle.std.specs.Prelude.{◌≡◌, ◌+◌, ◌*◌, ◌<◌, ◌≤◌, [], ◌∷◌, length};
ghost use Rattle.blocks.specs.Block.{block_bytes, weighted_place};
ghost use Rattle.sheet.specs.Layout.{first_word, header_mark, node_word};
ghost use Rattle.sheet.specs.Steps.{pair_of};
ghost use Rattle.sheet.specs.Walk.{OnRow};
ghost use Rattle.writer.specs.Steps.{store_words, Past, rows_of, zeroed, close_block, block_over};
ghost use Rattle.writer.specs.Rows.{node_count, row_of, BlockBegun, rows_of_block};

use super::node_rows::Rows;
use blocks::check::sums_of;
use blocks::{CLOSING_PLACE, WEIGHTED_PLACE};
use sheet::layout::{FIRST_WORD, HEADER_MARK, HEADER_WORDS, LAST_ROW_WORD, ROW_WORDS, rows_of};
use sheet::walk::{RowPlace, next_row};

// Stores a word.
fn put(block: &mut [u8], place: usize, word: u16)
    requires { 2 * place + 1 < length block.old }
    ensures { block.new ≡ store_words block.old place (word ∷ []) }
{
    let [low, high] = word.to_le_bytes();
    block[2 * place] = low;
    block[2 * place + 1] = high;
}

// Stores the pair of entries numbered `pair`.
fn put_pair(block: &mut [u8], place: usize, entries: &[u16], pair: usize)
    requires place_in_bounds { 2 * place + 3 < length block.old }
    requires pair_in_bounds { 2 * pair + 1 < length entries.now }
    ensures { block.new ≡ store_words block.old place (pair_of entries.now pair) }
{
    let first = entries[2 * pair];
    let second = entries[2 * pair + 1];
    put(block, place, first);
    put(block, place + 1, second);
}

// Stores a block's place and its word 1.
fn put_head(block: &mut [u8], place: usize, count: usize)
    requires place_bound { (place < 65536) × (count < 65536) }
    requires in_bounds { 3 < length block.old }
    ensures { block.new ≡ store_words block.old 0 (place ∷ count ∷ []) }
{
    put(block, 0, place as u16);
    put(block, 1, count as u16);
}

// Stores a node's row: first child, next sibling, tape low, tape high, half-width.
fn put_row(block: &mut [u8], at: RowPlace, rows: Rows<'_>)
    requires on_row { (OnRow at) × (block_bytes ≤ length block.old) }
    requires node { at.node < node_count rows }
    ensures { block.new ≡ store_words block.old (node_word at.node) (row_of rows.entry at.node) }
{
    let node = at.node;
    put_pair(block, at.word, rows.tree.entries, node);
    put_pair(block, at.word + 2, rows.tapes, node);
    put(block, at.word + 4, rows.widths[node]);
}

// Stores the rows of a block from its first one on, and gives the row after them. The last one is stored after the loop, so that the loop
// stays in the block; the first one's word is given anew, so that the rows are counted without a division.
fn put_rows(block: &mut [u8], from: RowPlace, rows: Rows<'_>) -> RowPlace
    requires begun { BlockBegun rows from }
    requires block_bytes_in_bounds { block_bytes ≤ length block.old }
    ensures past { Past (node_count rows.entry) from result }
    ensures block_after { block.new ≡ store_words block.old first_word (rows_of_block rows.entry from) }
{
    let last = rows.tree.nodes() - 1;
    let mut at = RowPlace {
        node: from.node,
        block: from.block,
        word: FIRST_WORD,
    };
    while at.node < last && at.word < LAST_ROW_WORD {
        put_row(block, at, rows);
        at = next_row(at);
    }
    put_row(block, at, rows);
    next_row(at)
}

// Stores 0 in the words from `used` on, up to the check words.
fn put_zeros(block: &mut [u8], used: usize)
    requires { (block_bytes ≤ length block.old) × (used ≤ weighted_place) }
    ensures { block.new ≡ zeroed used block.old }
{
    block[2 * used..2 * WEIGHTED_PLACE].fill(0);
}

// Stores the check words: the weighted sum, and the word that closes the sum with it.
fn close(block: &mut [u8])
    requires { block_bytes ≤ length block.old }
    ensures { block.new ≡ close_block block.old }
{
    let sums = sums_of(block);
    let sum = sums.plain.wrapping_add(sums.weighted);
    put(block, WEIGHTED_PLACE, sums.weighted);
    put(block, CLOSING_PLACE, 0u16.wrapping_sub(sum));
}

// Writes the header, block 0: n and D.
pub fn write_header(block: &mut [u8], nodes: usize, separation: u16)
    requires { (nodes < 65536) × (block_bytes ≤ length block.old) }
    ensures { block.new ≡ block_over (0 ∷ header_mark ∷ nodes ∷ separation ∷ []) block.old }
{
    put_head(block, 0, HEADER_MARK);
    put(block, FIRST_WORD, nodes as u16);
    put(block, FIRST_WORD + 1, separation);
    put_zeros(block, FIRST_WORD + HEADER_WORDS);
    close(block);
}

// Writes a block of rows from its first row on, and gives the row after them.
pub fn write_block(block: &mut [u8], from: RowPlace, rows: Rows<'_>) -> RowPlace
    requires begun { BlockBegun rows from }
    requires block_bytes_in_bounds { block_bytes ≤ length block.old }
    ensures past { Past (node_count rows.entry) from result }
    ensures block_after { block.new ≡ block_over (from.block ∷ rows_of (node_count rows.entry) from ∷ rows_of_block rows.entry from) block.old }
{
    let count = rows_of(rows.tree.nodes() - from.node);
    put_head(block, from.block, count);
    let next = put_rows(block, from, rows);
    put_zeros(block, FIRST_WORD + ROW_WORDS * count);
    close(block);
    next
}
