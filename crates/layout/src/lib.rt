// The linear engine: where the nodes of a tree table stand, in time proportional to their number.
#![tactic(auto)]

ghost use Rattle.std.specs.Prelude.{◌≡◌};
ghost use Rattle.refusal.specs.First.{first};
ghost use Rattle.refusal.specs.Number.{number_of};
ghost use Rattle.distance.specs.Needed.{needed};
ghost use Rattle.tree.specs.WellFormed.{table_number};
ghost use Rattle.rule.specs.Join.{spaced};
ghost use Rattle.rule.specs.Result.{Layout, LaidOut};
ghost use Rattle.layout.specs.Operation.{slices, answer_of, distance_conditions, room_conditions, Taken};

use level_order::spaced_tree::SpacedTree;
use refusal::Refusal;
use tree::Tree;

#[derive(Clone, Copy)]
pub struct Drawn {
    pub nodes: u16,
    pub levels: u16,
    pub least: i32,
    pub greatest: i32,
    pub pairs: u16,
}

// 6 or 17, the first that holds.
#[tactic(auto, unfolding(distance::specs::Needed::bad_separation))]
pub fn check_distances(table: &[u16], separation: u16, widths: &[u16]) -> Result<(), Refusal>
    ensures { number_of result ≡ first (distance_conditions table.now separation widths.now) }
{
    if !(1..=1024).contains(&separation) {
        return Err(Refusal::Separation);
    }
    let n = table.len() / 2;
    if distance::half_widths_wrong(widths, n) {
        return Err(Refusal::HalfWidths);
    }
    Ok(())
}

// 7 or 8, the first that holds.
#[tactic(auto, unfolding(rule::specs::Result::short_results, rule::specs::Result::short_work))]
pub fn check_room(
    table: &[u16],
    places: &[i32],
    levels: &[u16],
    measured: &[u16],
    work: &[i32],
) -> Result<(), Refusal>
    requires { table_number table.now ≡ 0 }
    ensures { number_of result ≡ first (room_conditions table.now (slices places.now levels.now measured.now work.now)) }
{
    let n = table.len() / 2;
    if places.len() < n || levels.len() < n || measured.len() < 2 * n {
        return Err(Refusal::OutputRoom);
    }
    if work.len() < 16 * n {
        return Err(Refusal::WorkingRoom);
    }
    Ok(())
}

// Draws what is not refused; `extra` is added where a node is significant. The half-widths past n are not looked at, and the first 16
// working entries for each node are 0 afterwards. The four lent slices are parameters of their own: a struct that held them would have to say
// in each contract that it keeps them.
pub fn draw<'a>(
    table: &'a [u16],
    separation: u16,
    widths: &'a [u16],
    extra: u16,
    places: &mut [i32],
    levels: &mut [u16],
    measured: &mut [u16],
    work: &mut [i32],
) -> Drawn
    requires { Taken table.now separation widths.now extra (slices places.old levels.old measured.old work.old) }
    ensures { LaidOut 0 (spaced (needed separation widths.now) extra) table.now (slices places.old levels.old measured.old work.old) (answer_of (Ok result)) (slices places.new levels.new measured.new work.new) }
{
    let n = table.len() / 2;
    let table = Tree { entries: table };
    let tree = SpacedTree {
        table,
        separation,
        widths: &widths[..n],
        extra,
    };
    level_order::number(&tree, work);
    families::families(&tree, work);
    let settled = second_walk::second_walk(
        &tree,
        &mut places[..n],
        &mut levels[..n],
        &mut measured[..2 * n],
        work,
    );
    work[..16 * n].fill(0);
    Drawn {
        nodes: n as u16,
        levels: settled.levels,
        least: settled.least,
        greatest: settled.greatest,
        pairs: settled.pairs,
    }
}

// Writes places and levels by node number, and the pairs of neighbours as the record. `widths` are the nodes' half-widths. A refusal
// changes nothing.
pub fn layout(
    table: &[u16],
    separation: u16,
    widths: &[u16],
    places: &mut [i32],
    levels: &mut [u16],
    measured: &mut [u16],
    work: &mut [i32],
) -> Result<Drawn, Refusal>
    ensures { Layout table.now separation widths.now (slices places.old levels.old measured.old work.old) (answer_of result) (slices places.new levels.new measured.new work.new) }
{
    tree::check_table(table)?;
    check_distances(table, separation, widths)?;
    check_room(table, places, levels, measured, work)?;
    Ok(draw(table, separation, widths, 0, places, levels, measured, work))
}
