// The walk over the rows of a file in node order. The block and the word of a row are stepped from those of the row before it:
// nothing is divided.
ghost use Rattle.std.specs.Prelude.{◌≡◌, ◌+◌, ◌<◌};
ghost use Rattle.sheet.specs.Walk.{OnRow};

use super::layout::{FIRST_BLOCK, FIRST_WORD, LAST_ROW_WORD, ROW_WORDS};

// Where a node's row stands in a file: its block, and its first word there.
#[derive(Clone, Copy)]
pub struct RowPlace {
    pub node: usize,
    pub block: usize,
    pub word: usize,
}

// The row of node 0.
pub fn first_row() -> RowPlace
    ensures { (result.node ≡ 0) × (OnRow result) }
{
    RowPlace {
        node: 0,
        block: FIRST_BLOCK,
        word: FIRST_WORD,
    }
}

// The row of the next node: the next one of the block, and after the block's last one the first of the next block.
pub fn next_row(at: RowPlace) -> RowPlace
    requires { (OnRow at) × (at.node < 65536) }
    ensures { (result.node ≡ at.node + 1) × (OnRow result) }
{
    let node = at.node + 1;
    if at.word < LAST_ROW_WORD {
        let word = at.word + ROW_WORDS;
        RowPlace {
            node,
            block: at.block,
            word,
        }
    } else {
        let block = at.block + 1;
        RowPlace {
            node,
            block,
            word: FIRST_WORD,
        }
    }
}
