// Shifts and changes. A meeting of two children leaves what those between them have to move as a shift and three changes; one pass over a row,
// from right to left, carries all of it out.
#![tactic(auto)]

ghost use Rattle.std.specs.Prelude.{◌≡◌, true, ℕ, ◌-◌, ◌*◌, ◌≤◌, ◌<◌, nat_abs, length};
ghost use Rattle.std.specs.Int.Signed.{non_neg};
ghost use Rattle.level_order.specs.Fields;
ghost use Rattle.level_order.specs.Fields.{cell, offset};
ghost use Rattle.shifts.specs.Shifts.{added, shared, Bounded, Executed};

use level_order::by_name::{get, put};
use level_order::field::Field;

// Adds to a field of position p.
#[tactic(auto, unfolding(crate::specs::Shifts::added))]
fn add(work: &mut [i32], p: usize, field: Field, amount: i32)
    requires room { cell p (offset field) < length work.old }
    requires before { nat_abs (Fields.get work.old (offset field) p) ≤ 16777216 }
    requires amount { nat_abs amount ≤ 16777216 }
    ensures { work.new ≡ added work.old (offset field) p amount }
{
    let before = get(work, p, field);
    put(work, p, field, before + amount);
}

// Shares s over the gaps between the children i and c: q for each, and one more for the r rightmost. Where r is 0, the two changes at c
// make -q.
pub fn share(work: &mut [i32], i: usize, c: usize, s: usize)
    requires order { i < c }
    requires few { c < 1024 }
    requires amount { s ≤ 4194304 }
    requires room { cell c Fields.CHANGE < length work.old }
    requires shift { nat_abs (Fields.get work.old Fields.SHIFT c) ≤ 4194304 }
    requires changes { (p : ℕ) → i ≤ p → p ≤ c → nat_abs (Fields.get work.old Fields.CHANGE p) ≤ 4194304 }
    ensures { work.new ≡ shared work.old i c s }
{
    let gaps = c - i;
    let q = s / gaps;
    let r = s % gaps;
    add(work, c, Field::Shift, s as i32);
    add(work, c, Field::Change, -((q + 1) as i32));
    add(work, c - r, Field::Change, 1);
    add(work, i, Field::Change, q as i32);
}

// Moves the children at the positions from f to end by what is pending, and counts their places from the middle of the row.
pub fn execute(work: &mut [i32], f: usize, end: usize)
    requires root { 0 < f }
    requires some { f < end }
    requires few { end ≤ 1024 }
    requires room { 16 * end ≤ length work.old }
    requires last { non_neg (Fields.get work.old Fields.PLACE (end - 1)) ≡ true }
    requires bounded { Bounded f end work.old }
    ensures { Executed f end work.old work.new }
{
    let middle = get(work, end - 1, Field::Place) / 2;
    let mut sum: i32 = 0;
    let mut rate: i32 = 0;
    for p in (f..end).rev() {
        let place = get(work, p, Field::Place);
        put(work, p, Field::Place, place + sum - middle);
        rate += get(work, p, Field::Change);
        sum += get(work, p, Field::Shift) + rate;
    }
}
