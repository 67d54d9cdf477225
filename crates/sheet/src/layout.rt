// The layout of a sheet of n nodes: its blocks, their rows, and the words that are fixed.
ghost use Rattle.std.specs.Prelude.{◌≡◌, ◌+◌, ◌<◌, ◌≤◌, min};
ghost use Rattle.blocks.specs.Block.{weighted_place};
ghost use Rattle.sheet.specs.Layout.{first_word, header_mark, header_words, block_rows, row_word, blocks_for, fixed_hold};

use blocks::{Block, WEIGHTED_PLACE, word};

pub const MOST_NODES: usize = 1024;

pub const MOST_SEPARATION: usize = 1024;

const BLOCK_ROWS: usize = 50;

pub const ROW_WORDS: usize = 5;

pub const FIRST_BLOCK: usize = 1;

pub const FIRST_WORD: usize = 2;

pub const LAST_ROW_WORD: usize = 247;

pub const HEADER_MARK: usize = 1;

pub const HEADER_WORDS: usize = 2;

// How many blocks a sheet takes.
pub fn blocks_for(nodes: usize) -> usize
    requires { nodes < 65536 }
    ensures { result ≡ blocks_for nodes }
{
    1 + (nodes + (BLOCK_ROWS - 1)) / BLOCK_ROWS
}

// How many rows a block holds, where `left` nodes are left for it and the blocks after it.
pub fn rows_of(left: usize) -> usize
    ensures { result ≡ min block_rows left }
{
    left.min(BLOCK_ROWS)
}

// Whether word 1 is `count` and the words from `used` to the check words are 0.
fn fixed_hold(block: &Block, count: usize, used: usize) -> bool
    requires { (1 < used) × (used ≤ weighted_place) }
    ensures { result ≡ fixed_hold count used block.now }
{
    if usize::from(word(block, 1)) != count {
        return false;
    }
    for place in used..WEIGHTED_PLACE {
        if word(block, place) != 0 {
            return false;
        }
    }
    true
}

// Whether the header has every word that the layout fixes.
pub fn header_laid(block: &Block) -> bool
    ensures { result ≡ fixed_hold header_mark (first_word + header_words) block.now }
{
    fixed_hold(block, HEADER_MARK, FIRST_WORD + HEADER_WORDS)
}

// Whether a block of so many rows has every word that the layout fixes.
pub fn rows_laid(block: &Block, rows: usize) -> bool
    requires { rows ≤ block_rows }
    ensures { result ≡ fixed_hold rows (row_word rows) block.now }
{
    fixed_hold(block, rows, FIRST_WORD + ROW_WORDS * rows)
}
