// Whose is a node of the right contour.
ghost use Rattle.std.specs.Prelude.{◌≡◌, ◌<◌, length};
ghost use Rattle.level_order.specs.Fields;
ghost use Rattle.level_order.specs.Fields.{cell};
ghost use Rattle.descent.specs.Descent.{owner_of};

use crate::Elders;
use level_order::by_name::get;
use level_order::field::Field;

// The elder sibling to which position z belongs: its ancestor, or the default where that is out of date.
pub fn owner(work: &[i32], z: usize, elders: Elders) -> usize
    requires { cell z Fields.ANCESTOR < length work.now }
    ensures { result ≡ owner_of (Fields.get work.now Fields.ANCESTOR z) elders.first elders.child elders.default }
{
    match usize::try_from(get(work, z, Field::Ancestor)) {
        Ok(k) if elders.first <= k && k < elders.child => k,
        _ => elders.default,
    }
}
