// The second walk, from the first position to the last: places and levels by node number, the extremes, and the record.
#![tactic(auto)]

ghost use Rattle.std.specs.Prelude.{◌≡◌, ℕ, pos};
ghost use Rattle.level_order.specs.Fields as fields;
ghost use Rattle.level_order.specs.Numbered.{Accepted};
ghost use Rattle.level_order.specs.Spaced.{table_of};
ghost use Rattle.second_walk.specs.SecondWalk.{spacing_of, Ready, Descends, descended, Writes, Written, Pairs, Paired, Lengths};
ghost use Rattle.second_walk.specs.SecondWalk as walk;

use level_order::by_name::{get, put};
use level_order::field::Field;
use level_order::spaced_tree::SpacedTree;

// How many levels there are, the least and the greatest place, and how many pairs.
#[derive(Clone, Copy)]
pub struct Settled {
    pub levels: u16,
    pub least: i32,
    pub greatest: i32,
    pub pairs: u16,
}

// The place and the level of position p, from those of its parent.
fn descend(work: &mut [i32], p: usize)
    requires { Descends work.old p }
    ensures { (q : ℕ) → fields.get work.old fields.PARENT p ≡ pos q → work.new ≡ descended work.old p q }
{
    let q = get(work, p, Field::Parent) as usize;
    let place = get(work, q, Field::Place) + get(work, p, Field::Place);
    let level = get(work, q, Field::Level) + 1;
    put(work, p, Field::Place, place);
    put(work, p, Field::Level, level);
}

// Writes the place and the level of position p by its node's number.
fn write(work: &[i32], p: usize, places: &mut [i32], levels: &mut [u16])
    requires { Writes work.now p places.old levels.old }
    ensures { Written work.now p places.old levels.old places.new levels.new }
{
    let v = get(work, p, Field::Node) as usize;
    places[v] = get(work, p, Field::Place);
    levels[v] = get(work, p, Field::Level) as u16;
}

// Writes the pair of two positions that follow each other, if they have one level, and says how many pairs there are now. The count stands
// beside the record, since a struct that held both would have to say in each contract that it keeps the reference.
fn pair(work: &[i32], left: usize, right: usize, measured: &mut [u16], pairs: usize) -> usize
    requires { Pairs work.now left right measured.old pairs }
    ensures { Paired work.now left right measured.old pairs result measured.new }
{
    let left_level = get(work, left, Field::Level);
    let right_level = get(work, right, Field::Level);
    if left_level != right_level {
        return pairs;
    }
    let at = 2 * pairs;
    measured[at] = get(work, left, Field::Node) as u16;
    measured[at + 1] = get(work, right, Field::Node) as u16;
    pairs + 1
}

// The whole walk, over slices of just n, n and 2n entries. Of the tree only the table is read: its distances stand in the contract alone.
pub fn second_walk(
    tree: &SpacedTree<'_>,
    places: &mut [i32],
    levels: &mut [u16],
    measured: &mut [u16],
    work: &mut [i32],
) -> Settled
    requires accepted { Accepted (table_of tree.now) tree.now.separation tree.now.widths.now }
    requires lengths { Lengths (table_of tree.now) places.old levels.old measured.old }
    requires ready { Ready (spacing_of tree.now) (table_of tree.now) work.old }
    ensures { walk.Settled (table_of tree.now) (spacing_of tree.now) places.new levels.new measured.old measured.new work.old work.new result.levels result.least result.greatest result.pairs }
{
    let n = tree.table.nodes();
    places[0] = 0;
    levels[0] = 0;
    put(work, 0, Field::Level, 0);
    let mut least: i32 = 0;
    let mut greatest: i32 = 0;
    let mut pairs: usize = 0;
    for p in 1..n {
        descend(work, p);
        write(work, p, places, levels);
        let place = get(work, p, Field::Place);
        least = least.min(place);
        greatest = greatest.max(place);
        pairs = pair(work, p - 1, p, measured, pairs);
    }
    let last = get(work, n - 1, Field::Level) as u16;
    Settled {
        levels: last + 1,
        least,
        greatest,
        pairs: pairs as u16,
    }
}
