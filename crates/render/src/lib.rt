// From the bytes of a sheet file to the text that is printed for it.
#![tactic(auto)]

ghost use Rattle.std.specs.Prelude.{◌≤◌, ◌↔◌, length, IsSome};
ghost use Rattle.lines.specs.Printed.{bytes_written, Printed};
ghost use Rattle.render.specs.Text.{text_room, table_text, SheetListed};

pub const TEXT_ROOM: usize = 41024;

// Lays a table out and writes its listing, or the line of its refusal.
fn list_table(
    table: &[u16],
    separation: u16,
    tapes: &[u16],
    widths: &[u16],
    out: &mut [u8],
) -> Option<usize>
    requires le_separation { 1 ≤ separation }
    requires separation_bound { separation ≤ 1024 }
    requires table_in_bounds { length table.now ≤ length tapes.now }
    requires text_room_in_bounds { text_room ≤ length out.old }
    ensures written { IsSome result }
    ensures printed { Printed (table_text separation table.now tapes.now widths.now) out.old (bytes_written result) out.new }
{
    let mut places = [0i32; 1024];
    let mut levels = [0u16; 1024];
    let mut measured = [0u16; 2048];
    let mut work = [0i32; 16384];
    let laid = layout::layout(
        table,
        separation,
        widths,
        &mut places,
        &mut levels,
        &mut measured,
        &mut work,
    );
    match laid {
        Ok(drawn) => {
            let n = drawn.nodes as usize;
            lines::write_listing(
                drawn.nodes,
                drawn.levels,
                separation,
                drawn.least,
                drawn.greatest,
                &levels[..n],
                &places[..n],
                tapes,
                out,
            )
        }
        Err(refused) => lines::write_refusal(refused.number(), out),
    }
}

// Writes what is printed for a file to the start of `out` and gives the number of its bytes: the listing of its sheet, or the line of a
// refusal. Where `out` has fewer than 41,024 bytes, nothing is written.
pub fn list_sheet(file: &[u8], out: &mut [u8]) -> Option<usize>
    ensures written { IsSome result ↔ (text_room ≤ length out.old) }
    ensures printed { SheetListed file.now out.old (bytes_written result) out.new }
{
    if out.len() < TEXT_ROOM {
        return None;
    }
    let mut table = [0u16; 2048];
    let mut tapes = [0u16; 2048];
    let mut widths = [0u16; 1024];
    match sheet::read_sheet(file, &mut table, &mut tapes, &mut widths) {
        Ok(sheet) => {
            let n = sheet.nodes as usize;
            list_table(
                &table[..2 * n],
                sheet.separation,
                &tapes[..2 * n],
                &widths[..n],
                out,
            )
        }
        Err(refusal) => lines::write_refusal(refusal.number(), out),
    }
}
