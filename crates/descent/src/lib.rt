// The steps of the contour walk, by which one child is joined to its elder siblings: the right contour of the row and the left contour of the
// child are walked down together.
#![tactic(auto)]

ghost use Rattle.std.specs.Prelude.{◌≡◌, ◌+◌, ◌-◌, ◌*◌, ◌≤◌, ◌<◌, pos, length};
ghost use Rattle.rule.specs.Join.{above0};
ghost use Rattle.level_order.specs.Fields;
ghost use Rattle.descent.specs.Descent;
ghost use Rattle.descent.specs.Descent.{Reads, Modest, Looked, Level, Threads, Steps, top_level, lower, too_close, worked, is_end, threaded, new_default};

pub mod by_name;
mod owner;

use level_order::by_name::{get, put};
use level_order::field::Field;
use shifts::share;

// The elder siblings of the child at position `child`: they stand from `first` on, and to `default` belong those of their nodes whose ancestor
// is out of date.
#[derive(Clone, Copy)]
pub struct Elders {
    pub first: usize,
    pub child: usize,
    pub default: usize,
}

// Where the walk stands: on one level the row's nodes are at the positions from `row` to `child` and the child's from `child` to `end`. The
// places are those of the nodes at child - 1, child, row and end - 1, the child's as it started; `moved` is how far it has been moved.
#[derive(Clone, Copy)]
pub struct Stand {
    pub row: usize,
    pub child: usize,
    pub end: usize,
    pub right: i32,
    pub left: i32,
    pub outer_left: i32,
    pub outer_right: i32,
    pub moved: i32,
}

// An entry that holds a position or a count.
pub fn position(work: &[i32], p: usize, field: usize) -> usize
    requires { Reads work.now field p }
    ensures { result ≡ above0 (Fields.get work.now field p) }
{
    level_order::field::get(work, p, field) as usize
}

// The position past the children of position p.
pub fn past(work: &[i32], p: usize) -> usize
    requires first { Reads work.now Fields.FIRST p }
    requires count { Reads work.now Fields.COUNT p }
    ensures { result ≡ above0 (Fields.get work.now Fields.FIRST p) + above0 (Fields.get work.now Fields.COUNT p) }
{
    by_name::position(work, p, Field::First) + by_name::position(work, p, Field::Count)
}

// The top level: the first child, which stands at 0, the last child joined, and the new child, which starts after it at the distance that it
// needs.
pub fn begin(work: &[i32], elders: Elders) -> Stand
    requires order { elders.first < elders.child }
    requires few { elders.child < 1024 }
    requires room { 16 * (elders.child + 1) ≤ length work.now }
    requires place { Modest (Fields.get work.now Fields.PLACE (elders.child - 1)) }
    requires need { Modest (Fields.get work.now Fields.NEED elders.child) }
    ensures { result ≡ top_level work.now elders.first elders.child }
{
    let before = get(work, elders.child - 1, Field::Place);
    let start = before + get(work, elders.child, Field::Need);
    Stand {
        row: elders.first,
        child: elders.child,
        end: elders.child + 1,
        right: before,
        left: start,
        outer_left: 0,
        outer_right: start,
        moved: 0,
    }
}

// By how much the child has to move on this level; the children between it and the one it meets get their shares.
pub fn meet(work: &mut [i32], s: Stand, elders: Elders) -> i32
    requires level { Level work.old s elders.first elders.child elders.default }
    requires need { Modest (Fields.get work.old Fields.NEED s.child) }
    requires modest { too_close work.old s ≤ 4194304 }
    ensures amount { result ≡ pos (too_close work.old s) }
    ensures gathered { work.new ≡ worked work.old s elders.first elders.child elders.default }
{
    let close = s.right + get(work, s.child, Field::Need) - (s.left + s.moved);
    // By the branch: `close.max(0)` after it would cost three instructions more on each level.
    let amount = if close > 0 {
        let met = owner::owner(work, s.child - 1, elders);
        share(work, met, elders.child, close as usize);
        close
    } else {
        0
    };
    put(work, s.end - 1, Field::Ancestor, elders.child as i32);
    amount
}

// Whether either contour has no further level.
pub fn ended(work: &[i32], s: Stand) -> bool
    requires { Looked work.now s }
    ensures { result ≡ is_end work.now s }
{
    let next = by_name::position(work, s.child, Field::First);
    by_name::position(work, s.row, Field::First) == next || next == past(work, s.end - 1)
}

// One level down.
pub fn descend(work: &[i32], s: Stand) -> Stand
    requires looked { Looked work.now s }
    requires steps { Steps work.now s }
    requires row { s.row < s.child }
    requires child { s.child < s.end }
    requires few { s.end ≤ 1024 }
    requires room { 16 * s.end ≤ length work.now }
    ensures { result ≡ lower work.now s }
{
    Stand {
        row: by_name::position(work, s.row, Field::First),
        child: by_name::position(work, s.child, Field::First),
        end: past(work, s.end - 1),
        right: s.right + get(work, s.child - 1, Field::Right),
        left: s.left + get(work, s.child, Field::Left),
        outer_left: s.outer_left + get(work, s.row, Field::Left),
        outer_right: s.outer_right + get(work, s.end - 1, Field::Right),
        moved: s.moved,
    }
}

// How far the child moves in all: where a conflict moved it, by the extra space too.
pub fn widened(moved: i32, extra: u16) -> i32
    requires natural { moved ≡ pos (above0 moved) }
    requires modest { Modest moved }
    requires little { extra ≤ 1024 }
    ensures { result ≡ pos (Descent.widened (above0 moved) extra) }
{
    if moved <= 0 {
        return moved;
    }
    moved + i32::from(extra)
}

// Threads the longer contour to the end of the shorter one, and says which child is the default now.
pub fn thread(work: &mut [i32], s: Stand, elders: Elders) -> usize
    requires level { Level work.old s elders.first elders.child elders.default }
    requires threads { Threads work.old s }
    ensures default { result ≡ new_default work.old s elders.child elders.default }
    ensures threaded { work.new ≡ threaded work.old s }
{
    let next = by_name::position(work, s.child, Field::First);
    if by_name::position(work, s.row, Field::First) < next {
        let step = s.right + get(work, s.child - 1, Field::Right) - (s.outer_right + s.moved);
        put(work, s.end - 1, Field::Right, step);
        return elders.default;
    }
    if next < past(work, s.end - 1) {
        let step = s.left + get(work, s.child, Field::Left) + s.moved - s.outer_left;
        put(work, s.row, Field::Left, step);
        return elders.child;
    }
    elders.default
}
