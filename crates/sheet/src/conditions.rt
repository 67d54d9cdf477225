// The conditions 9, 10, 11, 12 and 7 of the reader.
ghost use Rattle.std.specs.Prelude.{◌≡◌, ℕ, ◌*◌, ◌≤◌, Bool, List, length};
ghost use Rattle.std.specs.Borrow.{Bor};
ghost use Rattle.refusal.specs.Number.{number_of};
ghost use Rattle.blocks.specs.Block.{block_bytes};
ghost use Rattle.sheet.specs.Layout.{blocks_for};
ghost use Rattle.sheet.specs.Read.{some_block_fails, length_wrong, check_wrong, place_wrong, within, fixed_wrong, layout_wrong, room_wrong, refusal};

use super::header::{nodes_of, separation_of};
use super::layout::{
    FIRST_BLOCK, MOST_NODES, MOST_SEPARATION, blocks_for, header_laid, rows_laid, rows_of,
};
use blocks::check::is_sound;
use blocks::{BLOCK_BYTES, Block, block_at, in_place};
use refusal::Refusal;

const LEAST_BYTES: usize = 1024;

const MOST_BYTES: usize = 11264;

// Condition 9.
fn length_wrong(bytes: usize) -> bool
    ensures { result ≡ length_wrong bytes }
{
    bytes % BLOCK_BYTES != 0 || bytes < LEAST_BYTES || MOST_BYTES < bytes
}

// Whether a test fails for a block of the file. It is given the block and its place.
fn some_block_fails<F: Fn(usize, &Block) -> bool>(file: &[u8], test: F) -> bool
    requires { F.IsAlwaysCallable test }
    ensures { (t : ℕ → List ℕ → Bool) → ((place : ℕ) (block : Bor (List ℕ)) (r : Bool) → F.post test place block r → r ≡ t place block.now) → result ≡ some_block_fails t file.now }
{
    for place in 0..file.len() / BLOCK_BYTES {
        if !test(place, block_at(file, place)) {
            return true;
        }
    }
    false
}

// Condition 10.
fn check_wrong(file: &[u8]) -> bool
    ensures { result ≡ check_wrong file.now }
{
    some_block_fails(file, |_place, block| is_sound(block))
}

// Condition 11.
fn place_wrong(file: &[u8]) -> bool
    ensures { result ≡ place_wrong file.now }
{
    some_block_fails(file, |place, block| in_place(block, place))
}

// Whether a number is 1 to the greatest.
fn is_within(greatest: usize, number: usize) -> bool
    ensures { result ≡ within greatest number }
{
    (1..=greatest).contains(&number)
}

// Whether a word that the layout fixes differs, in any block. The count of nodes that are left is stepped from block to block, so that
// nothing is multiplied.
fn fixed_wrong(file: &[u8], nodes: usize) -> bool
    requires { length file.now ≡ block_bytes * blocks_for nodes }
    ensures { result ≡ fixed_wrong nodes file.now }
{
    if !header_laid(block_at(file, 0)) {
        return true;
    }
    let mut left = nodes;
    for place in FIRST_BLOCK..file.len() / BLOCK_BYTES {
        let rows = rows_of(left);
        if !rows_laid(block_at(file, place), rows) {
            return true;
        }
        left -= rows;
    }
    false
}

// Condition 12.
fn layout_wrong(file: &[u8]) -> bool
    requires { block_bytes ≤ length file.now }
    ensures { result ≡ layout_wrong file.now }
{
    let nodes = usize::from(nodes_of(file));
    let separation = usize::from(separation_of(file));
    !is_within(MOST_NODES, nodes)
        || !is_within(MOST_SEPARATION, separation)
        || file.len() != BLOCK_BYTES * blocks_for(nodes)
        || fixed_wrong(file, nodes)
}

// Condition 7; `table`, `tapes` and `widths` are the slices' lengths.
fn room_wrong(nodes: u16, table: usize, tapes: usize, widths: usize) -> bool
    ensures { result ≡ room_wrong nodes table tapes widths }
{
    let nodes = usize::from(nodes);
    table < 2 * nodes || tapes < 2 * nodes || widths < nodes
}

// The first condition that holds, if one does; `table`, `tapes` and `widths` are the slices' lengths.
#[tactic(auto, unfolding(crate::specs::Read::refusal))]
pub fn check_file(file: &[u8], table: usize, tapes: usize, widths: usize) -> Result<(), Refusal>
    ensures { number_of result ≡ refusal file.now table tapes widths }
{
    if length_wrong(file.len()) {
        return Err(Refusal::FileLength);
    }
    if check_wrong(file) {
        return Err(Refusal::BlockCheck);
    }
    if place_wrong(file) {
        return Err(Refusal::BlockPlace);
    }
    if layout_wrong(file) {
        return Err(Refusal::SheetLayout);
    }
    if room_wrong(nodes_of(file), table, tapes, widths) {
        return Err(Refusal::OutputRoom);
    }
    Ok(())
}
