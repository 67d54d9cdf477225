// The search: place by place of the list of trees, past those that have more nodes on a level than there are dots.
ghost use Rattle.std.specs.Prelude.{◌≡◌, true, ◌<◌, length};
ghost use Rattle.tree.specs.Forest.{table_of};
ghost use Rattle.small_trees.specs.Sequence.{is_sequence, tree_of_levels};
ghost use Rattle.small_trees.specs.SmallTrees.{tree_count};
ghost use Rattle.plots.specs.Points.{points_of, table_fits};
ghost use Rattle.plots.specs.Dots.{Profile};
ghost use Rattle.trees_of_dots.specs.TreesOfDots.{fitting_places, answer_of};
ghost use Rattle.trees_of_dots.specs.Steps.{Plot, Drawable, Descends, Descended, TriedAt, with_place, count_of};

use super::Trees;
use plots::{all_dots, profile_of};
use small_trees::levels::{Branch, choose, ways};
use small_trees::links::link;

// What is looked for: as many dots as nodes, the separation of the layouts, and how many dots stand on each level.
#[derive(Clone, Copy)]
struct Sought<'a> {
    nodes: usize,
    dots: &'a [i32],
    separation: u16,
    profile: [u16; 8],
    ghost plot: { Plot nodes dots.now separation },
    ghost counted: { Profile (points_of dots.now) profile },
}

// Whether the tree at a place fits, and how many places on the search goes.
#[derive(Clone, Copy)]
pub struct Tried {
    pub fits: bool,
    pub step: u16,
}

// Stores the levels at a place as long as the dots on each level suffice, with `left` of them; or else tells how many places from this one
// on begin with the same levels, the last of which is one too many.
fn descend(place: u16, left: &mut [u16], levels: &mut [usize]) -> Option<u16>
    requires { Descends place left.old levels.old }
    ensures { Descended (length levels.old) place left.old result levels.new }
{
    let nodes = levels.len();
    levels[0] = 0;
    let mut behind = Branch { level: 0, place };
    for node in 1..nodes {
        let more = nodes - 1 - node;
        behind = choose(more, behind);
        let level = behind.level;
        let Some(fewer) = left[level].checked_sub(1) else {
            return Some(ways(more, level) - behind.place);
        };
        left[level] = fewer;
        levels[node] = level;
    }
    None
}

impl Sought<'_> {
    // Whether the layout of a table has just the dots. As many nodes as dots stand at different points, so it is enough that each node's is one.
    fn table_fits(&self, table: &[u16]) -> bool
        requires { Drawable table.now self.now.dots.now self.now.separation }
        ensures { result ≡ table_fits self.now.separation (points_of self.now.dots.now) table.now }
    {
        let widths = [0u16; 8];
        let mut places = [0i32; 8];
        let mut levels = [0u16; 8];
        let mut measured = [0u16; 16];
        let mut work = [0i32; 128];
        let _ = layout::layout(
            table,
            self.separation,
            &widths,
            &mut places,
            &mut levels,
            &mut measured,
            &mut work,
        );
        all_dots(self.dots, table.len() / 2, &levels, &places)
    }

    // The same of the tree of a level sequence.
    fn levels_fit(&self, levels: &[usize]) -> bool
        requires sequence { is_sequence levels.now ≡ true }
        requires nodes { length levels.now ≡ self.now.nodes }
        ensures { result ≡ table_fits self.now.separation (points_of self.now.dots.now) (table_of (length levels.now) (tree_of_levels levels.now)) }
    {
        let entries = 2 * levels.len();
        let mut table = [0u16; 16];
        link(levels, &mut table[..entries]);
        self.table_fits(&table[..entries])
    }

    // Whether the tree at a place fits; one that has too many nodes on a level is passed, with those that begin alike.
    fn try_place(&self, place: u16) -> Tried
        requires { place < tree_count self.now.nodes }
        ensures { TriedAt self.now.nodes self.now.separation (points_of self.now.dots.now) place result }
    {
        let nodes = self.nodes;
        let mut left = self.profile;
        let mut levels = [0usize; 8];
        if let Some(step) = descend(place, &mut left, &mut levels[..nodes]) {
            return Tried { fits: false, step };
        }
        Tried {
            fits: self.levels_fit(&levels[..nodes]),
            step: 1,
        }
    }
}

// One place more that fits.
fn with_place(found: Option<Trees>, place: u16) -> Option<Trees>
    requires { count_of found < 65535 }
    ensures { result ≡ with_place found place }
{
    match found {
        Some(Trees { lowest, count }) => Some(Trees {
            lowest,
            count: count + 1,
        }),
        None => Some(Trees {
            lowest: place,
            count: 1,
        }),
    }
}

// The trees that fit, from the first place of the list to the last. Without a dot for the root there is none.
#[tactic(auto, using(crate::proofs::Searching::unrooted))]
pub fn search(nodes: usize, dots: &[i32], separation: u16) -> Option<Trees>
    requires { Plot nodes dots.now separation }
    ensures { result ≡ answer_of (fitting_places nodes separation (points_of dots.now)) }
{
    let profile = profile_of(nodes, dots);
    if profile[0] == 0 {
        return None;
    }
    let sought = Sought {
        nodes,
        dots,
        separation,
        profile,
    };
    let places = ways(nodes - 1, 0);
    let mut found = None;
    let mut place: u16 = 0;
    while place < places {
        let tried = sought.try_place(place);
        if tried.fits {
            found = with_place(found, place);
        }
        place += tried.step;
    }
    found
}
