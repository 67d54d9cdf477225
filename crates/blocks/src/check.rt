// A block's check: its plain and its weighted sum, in one pass over its words from word 253 down, and no product. At each word the running
// plain sum is added into the weighted one: a word is counted at itself and at each word before it, once more than its index. Eight such
// pairs run side by side, each over every eighth word, as many as the machine adds at once; then they are put together.
ghost use Rattle.std.specs.Prelude.{◌≡◌, ℕ, ◌+◌, ◌-◌, ◌≤◌, length};
ghost use Rattle.blocks.specs.Block.{block_bytes, weighted_place, word_at, sound};
ghost use Rattle.blocks.specs.Sums.{lane_count, lane, Summed, More, Grouped, Together};
ghost use Rattle.blocks.specs.declared.check.Sums.{Sums};

use super::{Block, CLOSING_PLACE, WEIGHTED_PLACE, word};

// The sums of some words. Both wrap.
#[derive(Clone, Copy)]
pub struct Sums {
    pub plain: u16,
    pub weighted: u16,
}

impl Sums {
    // One word more, in front of the others.
    fn more(&mut self, word: u16)
        ensures { More self.old word self.new }
    {
        self.plain = self.plain.wrapping_add(word);
        self.weighted = self.weighted.wrapping_add(self.plain);
    }
}

const LANES: usize = 8;

// The sums of eight lanes, each of every eighth word.
pub type Lanes = [Sums; LANES];

// Words 6 to 253 are 31 groups of eight, a word for each lane.
const UNGROUPED: usize = 6;

const GROUPS: usize = 31;

// Both sums of no words.
const NONE: Sums = Sums {
    plain: 0,
    weighted: 0,
};

// One word more in each lane: the eight from `from` on.
fn group(block: &[u8], from: usize, lanes: &mut Lanes)
    requires { (from + 8 ≤ weighted_place) × (block_bytes ≤ length block.now) }
    ensures { Grouped block.now from lanes.old lanes.new }
{
    for (place, sums) in lanes.iter_mut().enumerate() {
        sums.more(word(block, from + place));
    }
}

// The sums of what `part` takes from each lane.
fn across<F: Fn(Sums) -> u16>(lanes: &Lanes, part: F) -> Sums
    requires { F.IsAlwaysCallable part }
    ensures { (f : Sums → ℕ) → ((s : Sums) (w : ℕ) → F.post part s w → w ≡ f s) → Summed lane_count (λ j. f (lane lanes.now j)) result }
{
    let mut sums = NONE;
    for place in (0..LANES).rev() {
        sums.more(part(lanes[place]));
    }
    sums
}

// The sums of the words of all lanes. Across the lanes, each word is weighted by one more than its lane's index; it lacks eight for each
// group of eight before its own, which is once less than its lane has counted it.
fn together(lanes: &Lanes) -> Sums
    ensures { Together lanes.now result }
{
    let sums = across(lanes, |lane| lane.plain);
    let counted = across(lanes, |lane| lane.weighted);
    let groups = counted.plain.wrapping_sub(sums.plain);
    Sums {
        plain: sums.plain,
        weighted: sums.weighted.wrapping_add(groups.wrapping_mul(8)),
    }
}

// The sums of the words in groups.
fn sums_of_groups(block: &[u8]) -> Sums
    requires { block_bytes ≤ length block.now }
    ensures { Summed (weighted_place - 6) (λ i. word_at block.now (6 + i)) result }
{
    let mut lanes = [NONE; LANES];
    for index in (0..GROUPS).rev() {
        group(block, UNGROUPED + LANES * index, &mut lanes);
    }
    together(&lanes)
}

// The sums of words 0 to 253.
pub fn sums_of(block: &[u8]) -> Sums
    requires { block_bytes ≤ length block.now }
    ensures { Summed weighted_place (word_at block.now) result }
{
    let mut sums = sums_of_groups(block);
    for place in (0..UNGROUPED).rev() {
        sums.more(word(block, place));
    }
    sums
}

// Whether a block's check is right.
pub fn is_sound(block: &Block) -> bool
    ensures { result ≡ sound block.now }
{
    let sums = sums_of(block);
    let weighted = word(block, WEIGHTED_PLACE);
    let before = sums.plain.wrapping_add(weighted);
    weighted == sums.weighted && before.wrapping_add(word(block, CLOSING_PLACE)) == 0
}
