// The C interface. Each function is the operation of its name: it returns the number, and stores the other result fields through
// its last parameters. `hiwenoka_list_sheet` alone has no number: it writes what is printed, and returns the number of bytes.
#![tactic(auto)]

ghost use Rattle.std.specs.Prelude.{◌≡◌};
ghost use Rattle.refusal.specs.Number.{number_of, given};
ghost use Rattle.tree.specs.Operations.{CheckTable, Mirror, Renumber};
ghost use Rattle.sheet.specs.Read.{SheetRead};
ghost use Rattle.newick.specs.Read.{NewickRead};
ghost use Rattle.rule.specs.Result.{Layout};
ghost use Rattle.layout.specs.Operation.{slices, answer};
ghost use Rattle.writer.specs.Write.{SheetWritten};
ghost use Rattle.screen.specs.Screen.{OnScreenValues};
ghost use Rattle.render.specs.Text.{SheetListed};
ghost use Rattle.small_trees.specs.SmallTrees.{SmallTree};
ghost use Rattle.trees_of_dots.specs.TreesOfDots.{TreesOfDotsValues};
ghost use Rattle.treetex.specs.TreeTeX.{TreeTeX};

use refusal::Refusal;

// What a refused layout gives.
const NOTHING_DRAWN: layout::Drawn = layout::Drawn {
    nodes: 0,
    levels: 0,
    least: 0,
    greatest: 0,
    pairs: 0,
};

// The number of an answer, and what it has: what was given, and else what a refusal gives.
fn told<T: Copy>(answer: Result<T, Refusal>, refused: T) -> (u16, T)
    ensures number { result.0 ≡ number_of answer }
    ensures given { result.1 ≡ given refused answer }
{
    match answer {
        Ok(given) => (0, given),
        Err(refusal) => (refusal.number(), refused),
    }
}

#[unsafe(no_mangle)]
pub extern "C" fn hiwenoka_check_table(table: &[u16], nodes: &mut u16) -> u16
    ensures { CheckTable table.now result nodes.new }
{
    let (number, count) = told(tree::check_table(table), 0);
    *nodes = count;
    number
}

#[unsafe(no_mangle)]
pub extern "C" fn hiwenoka_layout(
    table: &[u16],
    separation: u16,
    widths: &[u16],
    places: &mut [i32],
    levels: &mut [u16],
    measured: &mut [u16],
    work: &mut [i32],
    nodes: &mut u16,
    level_count: &mut u16,
    least: &mut i32,
    greatest: &mut i32,
    pairs: &mut u16,
) -> u16
    ensures { Layout table.now separation widths.now (slices places.old levels.old measured.old work.old) (answer result nodes.new level_count.new least.new greatest.new pairs.new) (slices places.new levels.new measured.new work.new) }
{
    let laid = layout::layout(table, separation, widths, places, levels, measured, work);
    let (number, drawn) = told(laid, NOTHING_DRAWN);
    *nodes = drawn.nodes;
    *level_count = drawn.levels;
    let leftmost = drawn.least;
    *least = leftmost;
    let rightmost = drawn.greatest;
    *greatest = rightmost;
    *pairs = drawn.pairs;
    number
}

#[unsafe(no_mangle)]
pub extern "C" fn hiwenoka_layout_treetex(
    table: &[u16],
    separation: u16,
    widths: &[u16],
    extra: u16,
    places: &mut [i32],
    levels: &mut [u16],
    measured: &mut [u16],
    work: &mut [i32],
    nodes: &mut u16,
    level_count: &mut u16,
    least: &mut i32,
    greatest: &mut i32,
    pairs: &mut u16,
) -> u16
    ensures { TreeTeX table.now separation widths.now extra (slices places.old levels.old measured.old work.old) (answer result nodes.new level_count.new least.new greatest.new pairs.new) (slices places.new levels.new measured.new work.new) }
{
    let laid = treetex::layout_treetex(
        table, separation, widths, extra, places, levels, measured, work,
    );
    let (number, spread) = told(laid, NOTHING_DRAWN);
    *nodes = spread.nodes;
    *level_count = spread.levels;
    *least = spread.least;
    *greatest = spread.greatest;
    *pairs = spread.pairs;
    number
}

#[unsafe(no_mangle)]
pub extern "C" fn hiwenoka_mirror(table: &[u16], out: &mut [u16]) -> u16
    ensures { Mirror table.now out.old result out.new }
{
    told(tree::mirror(table, out), ()).0
}

#[unsafe(no_mangle)]
pub extern "C" fn hiwenoka_renumber(table: &[u16], out: &mut [u16], map: &mut [u16]) -> u16
    ensures { Renumber table.now out.old map.old result out.new map.new }
{
    told(tree::renumber(table, out, map), ()).0
}

#[unsafe(no_mangle)]
pub extern "C" fn hiwenoka_read_sheet(
    file: &[u8],
    table: &mut [u16],
    tapes: &mut [u16],
    widths: &mut [u16],
    nodes: &mut u16,
    separation: &mut u16,
) -> u16
    ensures { SheetRead file.now table.old tapes.old widths.old (record { number = result; nodes = nodes.new; separation = separation.new }) table.new tapes.new widths.new }
{
    let read = sheet::read_sheet(file, table, tapes, widths);
    let none = sheet::Sheet {
        nodes: 0,
        separation: 0,
    };
    let (number, sheet) = told(read, none);
    *nodes = sheet.nodes;
    *separation = sheet.separation;
    number
}

#[unsafe(no_mangle)]
pub extern "C" fn hiwenoka_read_newick(
    text: &[u8],
    table: &mut [u16],
    tapes: &mut [u16],
    nodes: &mut u16,
) -> u16
    ensures { NewickRead text.now table.old tapes.old (record { number = result; nodes = nodes.new }) table.new tapes.new }
{
    let (number, tree_nodes) = told(newick::read_newick(text, table, tapes), 0);
    *nodes = tree_nodes;
    number
}

#[unsafe(no_mangle)]
pub extern "C" fn hiwenoka_write_sheet(
    table: &[u16],
    separation: u16,
    tapes: &[u16],
    widths: &[u16],
    out: &mut [u8],
    bytes: &mut u16,
) -> u16
    ensures { SheetWritten table.now separation tapes.now widths.now out.old (record { number = result; bytes = bytes.new }) out.new }
{
    let (number, written) = told(
        writer::write_sheet(table, separation, tapes, widths, out),
        0,
    );
    *bytes = written;
    number
}

#[unsafe(no_mangle)]
pub extern "C" fn hiwenoka_list_sheet(file: &[u8], out: &mut [u8]) -> usize
    ensures { SheetListed file.now out.old result out.new }
{
    render::list_sheet(file, out).unwrap_or(0)
}

#[unsafe(no_mangle)]
pub extern "C" fn hiwenoka_on_screen(
    across: f64,
    down: f64,
    zoom: f64,
    level: u16,
    place: i32,
    on: &mut u8,
    x: &mut f64,
    y: &mut f64,
) -> u16
    ensures { OnScreenValues (record { across = across; down = down; zoom = zoom }) level place (record { number = result; on = on.new; across = x.new; down = y.new }) }
{
    let view = screen::View { across, down, zoom };
    let (number, seen) = told(screen::on_screen(view, level, place), None);
    let values = screen::values_of(number, seen);
    *on = values.on;
    *x = values.across;
    *y = values.down;
    values.number
}

#[unsafe(no_mangle)]
pub extern "C" fn hiwenoka_small_tree(nodes: u16, place: u16, table: &mut [u16]) -> u16
    ensures { SmallTree nodes place table.old result table.new }
{
    told(small_trees::small_tree(nodes, place, table), ()).0
}

#[unsafe(no_mangle)]
pub extern "C" fn hiwenoka_trees_of_dots(
    nodes: u16,
    dots: &[i32],
    separation: u16,
    lowest: &mut u16,
    count: &mut u16,
) -> u16
    ensures { TreesOfDotsValues nodes dots.now separation (record { number = result; lowest = lowest.new; count = count.new }) }
{
    let (number, found) = told(trees_of_dots::trees_of_dots(nodes, dots, separation), None);
    let values = trees_of_dots::values_of(number, found);
    *lowest = values.lowest;
    *count = values.count;
    values.number
}
