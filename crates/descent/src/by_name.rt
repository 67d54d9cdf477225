// A field that holds a position or a count, by its name.
ghost use Rattle.std.specs.Prelude.{◌≡◌};
ghost use Rattle.rule.specs.Join.{above0};
ghost use Rattle.level_order.specs.Fields;
ghost use Rattle.level_order.specs.Fields.{offset};
ghost use Rattle.descent.specs.Descent.{Reads};

use level_order::field::Field;

pub fn position(work: &[i32], p: usize, field: Field) -> usize
    requires { Reads work.now (offset field) p }
    ensures { result ≡ above0 (Fields.get work.now (offset field) p) }
{
    crate::position(work, p, field as usize)
}
