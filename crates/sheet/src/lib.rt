// The reader of sheet files. The bytes are judged by the conditions 9, 10, 11, 12 and 7; then the rows are read into a table
// slice, a tape slice and a half-width slice.
#![tactic(auto)]

ghost use Rattle.sheet.specs.Read.{answer_of, SheetRead};

mod conditions;
mod header;
pub mod layout;
mod rows;
pub mod walk;

use conditions::check_file;
use header::{nodes_of, separation_of};
use refusal::Refusal;
use rows::read_rows;

// What a sheet has besides its slices: n and D.
#[derive(Clone, Copy)]
pub struct Sheet {
    pub nodes: u16,
    pub separation: u16,
}

// Reads a sheet. Where it is accepted, each node's first child and next sibling stand in `table`, its tape number, low word and
// high word, in `tapes`, and its half-width in `widths`; entries past 2n, and past n in `widths`, are untouched. A refusal changes
// no slice. The tree and the half-widths are not judged.
pub fn read_sheet(
    file: &[u8],
    table: &mut [u16],
    tapes: &mut [u16],
    widths: &mut [u16],
) -> Result<Sheet, Refusal>
    ensures { SheetRead file.now table.old tapes.old widths.old (answer_of result) table.new tapes.new widths.new }
{
    check_file(file, table.len(), tapes.len(), widths.len())?;
    let nodes = nodes_of(file);
    let separation = separation_of(file);
    read_rows(file, nodes, table, tapes, widths);
    Ok(Sheet { nodes, separation })
}
