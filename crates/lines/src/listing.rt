// The lines of a listing.
ghost use Rattle.std.specs.Prelude.{◌≡◌, ◌+◌, ◌*◌, ◌<◌, ◌≤◌, length};
ghost use Rattle.lines.specs.Listing.{sheet_line, node_line, node_lines, tape_number};
ghost use Rattle.lines.specs.Printed.{most_nodes, sheet_line_room, node_line_room};
ghost use Rattle.lines.specs.Written.{Written};

use super::buffer::Text;

const SPACE: u8 = b' ';

pub const NEWLINE: u8 = b'\n';

// The first line.
pub fn write_sheet_line(
    text: &mut Text<'_>,
    nodes: u16,
    level_count: u16,
    separation: u16,
    least: i32,
    greatest: i32,
)
    requires { text.old.end + sheet_line_room ≤ length text.old.out.now }
    ensures { Written sheet_line_room (sheet_line nodes level_count separation least greatest) text.old text.new }
{
    text.write(b"sheet ");
    text.write_number(nodes, SPACE);
    text.write_number(level_count, SPACE);
    text.write_number(separation, SPACE);
    text.write_number(least, SPACE);
    text.write_number(greatest, NEWLINE);
}

// A node's tape number.
fn tape_number(tapes: &[u16], node: usize) -> u32
    requires { 2 * node + 1 < length tapes.now }
    ensures { result ≡ tape_number tapes.now node }
{
    let low = u32::from(tapes[2 * node]);
    let high = u32::from(tapes[2 * node + 1]);
    low + 65536 * high
}

// A node's line.
fn write_node(text: &mut Text<'_>, node: u16, level: u16, place: i32, tape: u32)
    requires { text.old.end + node_line_room ≤ length text.old.out.now }
    ensures { Written node_line_room (node_line node level place tape) text.old text.new }
{
    text.write_number(node, SPACE);
    text.write_number(level, SPACE);
    text.write_number(place, SPACE);
    text.write_number(tape, NEWLINE);
}

// The lines of all nodes.
pub fn write_nodes(text: &mut Text<'_>, nodes: u16, levels: &[u16], places: &[i32], tapes: &[u16])
    requires nodes_le_most_nodes { (nodes ≤ most_nodes) × (nodes ≤ length levels.now) × (nodes ≤ length places.now) × (2 * nodes ≤ length tapes.now) }
    requires nodes_in_bounds { text.old.end + node_line_room * nodes ≤ length text.old.out.now }
    ensures { Written (node_line_room * nodes) (node_lines nodes levels.now places.now tapes.now) text.old text.new }
{
    for node in 0..nodes {
        let i = node as usize;
        write_node(text, node, levels[i], places[i], tape_number(tapes, i));
    }
}
