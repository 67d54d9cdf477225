// The level sequence at a place of the list. Level by level, the sequences that begin with a smaller level there are counted off.
ghost use Rattle.std.specs.Prelude.{◌≡◌, ◌+◌, ◌<◌, length};
ghost use Rattle.small_trees.specs.SmallTrees.{further, sequence_at};
ghost use Rattle.small_trees.specs.Steps.{Choice, Chosen, InList};

// How many counts a row of WAYS has.
const ROW: usize = 8;

// How many ways there are to go on for m levels behind level l, at 8m + l, where m + l is at most 7:
//
//          l = 0   1   2   3  4  5  6  7
//     m = 0    1   1   1   1  1  1  1  1
//         1    1   2   3   4  5  6  7
//         2    2   5   9  14 20 27
//         3    5  14  28  48 75
//         4   14  42  90 165
//         5   42 132 297
//         6  132 429
//         7  429
pub static WAYS: [u16; 64] = [
    1, 1, 1, 1, 1, 1, 1, 1, 1, 2, 3, 4, 5, 6, 7, 0, 2, 5, 9, 14, 20, 27, 0, 0, 5, 14, 28, 48, 75,
    0, 0, 0, 14, 42, 90, 165, 0, 0, 0, 0, 42, 132, 297, 0, 0, 0, 0, 0, 132, 429, 0, 0, 0, 0, 0, 0,
    429, 0, 0, 0, 0, 0, 0, 0,
];

// A level, and a place among the ways to go on behind it.
#[derive(Clone, Copy)]
pub struct Branch {
    pub level: usize,
    pub place: u16,
}

// How many ways there are to go on for `more` levels behind a level.
pub fn ways(more: usize, behind: usize) -> u16
    requires { more + behind < 8 }
    ensures { result ≡ length (further more behind) }
{
    WAYS[ROW * more + behind]
}

// The next level behind a level, with `more` levels after it, at a place among the ways to go on: the greatest takes what is left.
pub fn choose(more: usize, behind: Branch) -> Branch
    requires { Choice more behind.level behind.place }
    ensures { Chosen more behind.level behind.place result }
{
    let mut rest = behind.place;
    for level in 1..=behind.level {
        let count = ways(more, level);
        if rest < count {
            return Branch { level, place: rest };
        }
        rest -= count;
    }
    Branch {
        level: behind.level + 1,
        place: rest,
    }
}

// The levels at a place of the list of as many nodes as there is room for.
pub fn levels_at(place: u16, levels: &mut [usize])
    requires { InList place levels.old }
    ensures { levels.new ≡ sequence_at (length levels.old) place }
{
    let nodes = levels.len();
    levels[0] = 0;
    let mut behind = Branch { level: 0, place };
    for node in 1..nodes {
        behind = choose(nodes - 1 - node, behind);
        levels[node] = behind.level;
    }
}
