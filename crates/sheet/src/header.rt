// The header of a file, block 0: n and D.
ghost use Rattle.std.specs.Prelude.{◌≡◌, ◌≤◌, length};
ghost use Rattle.blocks.specs.Block.{block_bytes};
ghost use Rattle.sheet.specs.Read.{nodes_of, separation_of};

use super::layout::FIRST_WORD;
use blocks::{block_at, word};

// n.
pub fn nodes_of(file: &[u8]) -> u16
    requires { block_bytes ≤ length file.now }
    ensures { result ≡ nodes_of file.now }
{
    word(block_at(file, 0), FIRST_WORD)
}

// D.
pub fn separation_of(file: &[u8]) -> u16
    requires { block_bytes ≤ length file.now }
    ensures { result ≡ separation_of file.now }
{
    word(block_at(file, 0), FIRST_WORD + 1)
}
