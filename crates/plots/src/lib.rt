// The dots of a plot: what is right of them, how many stand on each level, and whether a point is among them.
#![tactic(auto)]

ghost use Rattle.std.specs.Prelude.{◌≡◌, ◌*◌, ◌≤◌, length, false, not, ◌||◌, map};
ghost use Rattle.std.specs.List.{list_any};
ghost use Rattle.plots.specs.Points.{point_of, points_of, comes_before, same_point, is_among, all_among};
ghost use Rattle.plots.specs.Dots.{level_wrong, dots_wrong, points_at, Profile};

const LAST_LEVEL: i32 = 7;

// A level and a place, ordered by level and then place.
#[derive(Clone, Copy, PartialEq, Eq, PartialOrd, Ord)]
pub struct Point {
    pub level: i32,
    pub place: i32,
}

impl Point {
    // The dot of two entries.
    fn of(pair: &[i32; 2]) -> Point
        ensures { result ≡ point_of pair.now }
    {
        let [level, place] = *pair;
        Point { level, place }
    }
}

// Whether a dot is on a level outside 0 to 7, or the dot before does not come before it.
fn dot_wrong(last: Point, next: Point) -> bool
    ensures { result ≡ (level_wrong next || not (comes_before last next)) }
{
    !(0..=LAST_LEVEL).contains(&next.level) || next <= last
}

// Whether there are other than 2n entries, a level is outside 0 to 7, or the dots do not rise.
pub fn dots_wrong(nodes: usize, dots: &[i32]) -> bool
    requires { nodes ≤ 8 }
    ensures { result ≡ dots_wrong nodes dots.now }
{
    if dots.len() != 2 * nodes {
        return true;
    }
    let (pairs, _) = dots.as_chunks::<2>();
    // Every dot on a level from 0 on comes after this.
    let mut last = Point {
        level: -1,
        place: 0,
    };
    for pair in pairs {
        let next = Point::of(pair);
        if dot_wrong(last, next) {
            return true;
        }
        last = next;
    }
    false
}

// How many dots stand on each level.
pub fn profile_of(nodes: usize, dots: &[i32]) -> [u16; 8]
    requires nodes_bound { nodes ≤ 8 }
    requires dots_value { dots_wrong nodes dots.now ≡ false }
    ensures { Profile (points_of dots.now) result }
{
    let mut profile = [0u16; 8];
    let (pairs, _) = dots.as_chunks::<2>();
    for pair in pairs {
        profile[Point::of(pair).level as usize] += 1;
    }
    profile
}

// Whether a point is one of the dots.
fn has_dot(pairs: &[[i32; 2]], point: Point) -> bool
    ensures { result ≡ list_any (λ pair. same_point point (point_of pair)) pairs.now }
{
    pairs.iter().any(|pair| point == Point::of(pair))
}

// Whether the levels and places of the first n nodes are all among the dots.
pub fn all_dots(dots: &[i32], nodes: usize, levels: &[u16], places: &[i32]) -> bool
    requires nodes_in_bounds { nodes ≤ length levels.now }
    requires nodes_in_bounds_2 { nodes ≤ length places.now }
    ensures { result ≡ all_among (points_of dots.now) (points_at nodes levels.now places.now) }
{
    let (pairs, _) = dots.as_chunks::<2>();
    levels[..nodes].iter().zip(&places[..nodes]).all(|(&level, &place)| {
        let level = i32::from(level);
        has_dot(pairs, Point { level, place })
    })
}
