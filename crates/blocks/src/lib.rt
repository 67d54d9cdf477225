// The blocks of a file: words of 16 bits, the low byte first, a block's place and its check.
#![tactic(auto)]

ghost use Rattle.std.specs.Prelude.{◌≡◌, ◌+◌, ◌*◌, ◌<◌, ◌≤◌, length};
ghost use Rattle.blocks.specs.Block.{block_bytes, word_at, in_place, IsBlock};

pub mod check;

pub const BLOCK_BYTES: usize = 512;

pub type Block = [u8; BLOCK_BYTES];

// The places of the check words: of the weighted sum, and of the closing word.
pub const WEIGHTED_PLACE: usize = 254;

pub const CLOSING_PLACE: usize = 255;

// Word `place` of a block, the low byte first.
#[tactic(auto, unfolding(crate::specs::Block::word_at))]
pub fn word(block: &[u8], place: usize) -> u16
    requires { 2 * place + 1 < length block.now }
    ensures { result ≡ word_at block.now place }
{
    u16::from_le_bytes([block[2 * place], block[2 * place + 1]])
}

// Block `place` of a file.
pub fn block_at(file: &[u8], place: usize) -> &Block
    requires { block_bytes * place + block_bytes ≤ length file.now }
    ensures { IsBlock file.now place result.now }
{
    let (blocks, _) = file.as_chunks::<BLOCK_BYTES>();
    &blocks[place]
}

// Whether a block's first word is `place`.
#[tactic(auto, unfolding(crate::specs::Block::in_place))]
pub fn in_place(block: &Block, place: usize) -> bool
    ensures { result ≡ in_place place block.now }
{
    usize::from(word(block, 0)) == place
}
