// The working slice: sixteen entries for each position. Nothing else computes an index into it.
ghost use Rattle.std.specs.Prelude.{◌≡◌, ◌<◌, length};
ghost use Rattle.level_order.specs.Fields;
ghost use Rattle.level_order.specs.Fields.{cell};

// A field of a position, in the order of the stages that write them.
#[derive(Clone, Copy)]
pub enum Field {
    Node,
    First,
    Count,
    Parent,
    Need,
    Place,
    Left,
    Right,
    Ancestor,
    Shift,
    Change,
    Level,
}

// An entry of position p.
pub fn get(work: &[i32], p: usize, field: usize) -> i32
    requires { cell p field < length work.now }
    ensures { result ≡ Fields.get work.now field p }
{
    work[16 * p + field]
}

// Writes an entry of position p.
pub fn put(work: &mut [i32], p: usize, field: usize, value: i32)
    requires { cell p field < length work.old }
    ensures { work.new ≡ Fields.put work.old field p value }
{
    work[16 * p + field] = value;
}
