// The writer of sheet files. The table, D and the slices are judged by the conditions 1 to 5, 14, 6, 13, 17 and 7; then the file is written
// block by block.
#![tactic(auto)]

ghost use Rattle.std.specs.Prelude.{◌≡◌, ◌≤◌, IfOk, length};
ghost use Rattle.refusal.specs.Number.{number_of};
ghost use Rattle.distance.specs.Needed.{bad_separation};
ghost use Rattle.writer.specs.Write.{write_number, answer_of, SheetWritten};
ghost use Rattle.writer.specs.Rows.{file_of_rows};
ghost use Rattle.writer.specs.Steps.{FileWritten};

mod block;
mod node_rows;

use block::{write_block, write_header};
use blocks::BLOCK_BYTES;
use node_rows::Rows;
use refusal::Refusal;
use sheet::layout::blocks_for;
use sheet::walk::first_row;
use tree::Tree;

// Whether D is not 1 to 1,024.
fn separation_wrong(separation: u16) -> bool
    ensures { result ≡ bad_separation separation }
{
    !(1..=1024).contains(&separation)
}

// The rows of a sheet whose file has room in `out`, or the first condition that holds.
fn check<'a>(
    table: &'a [u16],
    separation: u16,
    tapes: &'a [u16],
    widths: &'a [u16],
    out: &[u8],
) -> Result<Rows<'a>, Refusal>
    ensures number { number_of result ≡ write_number table.now separation tapes.now widths.now out.now }
    ensures same_slices { IfOk result (λ rows. (rows.tree.entries.now ≡ table.now) × (rows.tapes.now ≡ tapes.now) × (rows.widths.now ≡ widths.now)) }
{
    let tree = Tree::new(table)?;
    let n = tree.nodes();
    if separation_wrong(separation) {
        return Err(Refusal::Separation);
    }
    if tapes.len() < 2 * n {
        return Err(Refusal::TapeNumbers);
    }
    if distance::half_widths_wrong(widths, n) {
        return Err(Refusal::HalfWidths);
    }
    if out.len() < BLOCK_BYTES * blocks_for(n) {
        return Err(Refusal::OutputRoom);
    }
    Ok(Rows {
        tree,
        tapes,
        widths,
    })
}

// Writes the file of a sheet that is accepted, and says how many bytes it has.
fn write_blocks(rows: Rows<'_>, separation: u16, out: &mut [u8]) -> usize
    requires { length (file_of_rows rows separation) ≤ length out.old }
    ensures { FileWritten rows.entry.tree.entries.now separation rows.entry.tapes.now rows.entry.widths.now out.old result out.new }
{
    let n = rows.tree.nodes();
    write_header(out, n, separation);
    let mut at = first_row();
    while at.node < n {
        let start = BLOCK_BYTES * at.block;
        at = write_block(&mut out[start..], at, rows);
    }
    BLOCK_BYTES * blocks_for(n)
}

// Writes a sheet, and says how many bytes its file has. Where it is accepted, the file stands at the start of `out`, and bytes past it are
// untouched; entries of `tapes` past two a node, and of `widths` past one, are not looked at. A refusal changes nothing.
pub fn write_sheet(
    table: &[u16],
    separation: u16,
    tapes: &[u16],
    widths: &[u16],
    out: &mut [u8],
) -> Result<u16, Refusal>
    ensures { SheetWritten table.now separation tapes.now widths.now out.old (answer_of result) out.new }
{
    let rows = check(table, separation, tapes, widths, out)?;
    Ok(write_blocks(rows, separation, out) as u16)
}
