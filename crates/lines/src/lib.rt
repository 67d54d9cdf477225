// The text of a listing. Each operation judges first whether its text can be written, so that no store inside needs a test.
#![tactic(auto)]

ghost use Rattle.std.specs.Prelude.{◌≡◌, ◌≤◌, ◌↔◌, true, length, IsSome};
ghost use Rattle.lines.specs.Printed.{refusal_room, printable, bytes_written, ListingPrinted, RefusalPrinted};

mod buffer;
mod listing;

use buffer::Text;
use listing::{NEWLINE, write_nodes, write_sheet_line};

const MOST_NODES: usize = 1024;

const SHEET_LINE_ROOM: usize = 64;

const NODE_LINE_ROOM: usize = 40;

const REFUSAL_ROOM: usize = 16;

// Whether a listing can be written; the last four are the slices' lengths.
fn is_printable(nodes: usize, levels: usize, places: usize, tapes: usize, bytes: usize) -> bool
    ensures { result ≡ printable nodes levels places tapes bytes }
{
    nodes <= MOST_NODES
        && nodes <= levels
        && nodes <= places
        && 2 * nodes <= tapes
        && SHEET_LINE_ROOM + NODE_LINE_ROOM * nodes <= bytes
}

// Writes a listing to the start of `out` and gives the number of its bytes. `tapes` has the low word and the high word of each node's
// tape number. Where there are more than 1,024 nodes, a slice has too few entries, or `out` has fewer than 64 bytes and 40 more for each
// node, nothing is written.
pub fn write_listing(
    nodes: u16,
    level_count: u16,
    separation: u16,
    least: i32,
    greatest: i32,
    levels: &[u16],
    places: &[i32],
    tapes: &[u16],
    out: &mut [u8],
) -> Option<usize>
    ensures written { IsSome result ↔ (printable nodes (length levels.now) (length places.now) (length tapes.now) (length out.old) ≡ true) }
    ensures printed { ListingPrinted nodes level_count separation least greatest levels.now places.now tapes.now out.old (bytes_written result) out.new }
{
    let count = nodes as usize;
    if !is_printable(count, levels.len(), places.len(), tapes.len(), out.len()) {
        return None;
    }
    let mut text = Text::new(out);
    write_sheet_line(&mut text, nodes, level_count, separation, least, greatest);
    write_nodes(&mut text, nodes, levels, places, tapes);
    Some(text.len())
}

// Writes the line of a refusal to the start of `out` and gives the number of its bytes. Where `out` has fewer than 16 bytes, nothing is
// written.
pub fn write_refusal(number: u16, out: &mut [u8]) -> Option<usize>
    ensures written { IsSome result ↔ (refusal_room ≤ length out.old) }
    ensures printed { RefusalPrinted number out.old (bytes_written result) out.new }
{
    if out.len() < REFUSAL_ROOM {
        return None;
    }
    let mut text = Text::new(out);
    text.write(b"refused ");
    text.write_number(number, NEWLINE);
    Some(text.len())
}
