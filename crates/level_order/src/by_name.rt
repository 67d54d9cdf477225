// The entries of a position by their fields' names: the engine asks for no other.
ghost use Rattle.std.specs.Prelude.{◌≡◌, ◌<◌, length};
ghost use Rattle.level_order.specs.Fields;
ghost use Rattle.level_order.specs.Fields.{cell, offset};

use crate::field::Field;

// A field of position p.
pub fn get(work: &[i32], p: usize, field: Field) -> i32
    requires { cell p (offset field) < length work.now }
    ensures { result ≡ Fields.get work.now (offset field) p }
{
    crate::field::get(work, p, field as usize)
}

// Writes a field of position p.
pub fn put(work: &mut [i32], p: usize, field: Field, value: i32)
    requires { cell p (offset field) < length work.old }
    ensures { work.new ≡ Fields.put work.old (offset field) p value }
{
    crate::field::put(work, p, field as usize, value);
}
