// From dots back to a tree: which of all ordered trees of 1 to 8 nodes have just these dots as their layout.
#![tactic(auto)]

ghost use Rattle.std.specs.Prelude.{◌≡◌};
ghost use Rattle.refusal.specs.Number.{number_of};
ghost use Rattle.trees_of_dots.specs.TreesOfDots.{refusal, TreesOfDots, found_of, values_of};

mod search;

use plots::dots_wrong;
use refusal::Refusal;
use search::search;

// The trees that fit: the lowest place of one in the list of the trees of so many nodes, and how many there are.
#[derive(Clone, Copy)]
pub struct Trees {
    pub lowest: u16,
    pub count: u16,
}

// A call's number and what it found in plain fields: a count of 0 is none.
#[derive(Clone, Copy)]
pub struct Values {
    pub number: u16,
    pub lowest: u16,
    pub count: u16,
}

// What a call is refused for.
fn judge(nodes: u16, dots: &[i32], separation: u16) -> Result<(), Refusal>
    ensures { number_of result ≡ refusal nodes dots.now separation }
{
    if !(1..=8).contains(&nodes) {
        return Err(Refusal::SmallTreeNodes);
    }
    if dots_wrong(nodes as usize, dots) {
        return Err(Refusal::Dots);
    }
    if !(1..=1024).contains(&separation) {
        return Err(Refusal::Separation);
    }
    Ok(())
}

// The trees of so many nodes whose layout under the separation has just these dots: level, place, level, place and so on, rising by level and
// then place.
pub fn trees_of_dots(nodes: u16, dots: &[i32], separation: u16) -> Result<Option<Trees>, Refusal>
    ensures { TreesOfDots nodes dots.now separation (found_of result) }
{
    judge(nodes, dots, separation)?;
    Ok(search(nodes as usize, dots, separation))
}

pub fn values_of(number: u16, found: Option<Trees>) -> Values
    ensures { result ≡ values_of number found }
{
    let none = Trees {
        lowest: 0,
        count: 0,
    };
    let Trees { lowest, count } = found.unwrap_or(none);
    Values {
        number,
        lowest,
        count,
    }
}
