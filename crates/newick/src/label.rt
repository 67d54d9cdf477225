// The label that stands at a place of a text, and a pair of entries stored.
ghost use Rattle.std.specs.Prelude.{◌≡◌, [], ◌∷◌, ◌+◌, ◌*◌, ◌<◌, length, drop};
ghost use Rattle.std.proofs.lemmas.List.Edits.{sets};
ghost use Rattle.newick.specs.Read.{words};
ghost use Rattle.newick.specs.Steps.{leading, label_at, LabelHere};

// A number, and the place after its digits.
#[derive(Clone, Copy)]
struct Label {
    value: u32,
    end: usize,
}

// The number whose digits stand at a place. Some byte comes after them, so that the loop needs no test of the text's end.
fn number_at(text: &[u8], at: usize) -> Label
    requires { LabelHere text.now at }
    ensures { result ≡ record { value = label_at text.now at; end = at + leading (drop at text.now) } }
{
    let mut value: u32 = 0;
    let mut end = at;
    while text[end].is_ascii_digit() {
        value = 10 * value + u32::from(text[end] - b'0');
        end += 1;
    }
    Label { value, end }
}

// Stores two numbers as the pair of entries numbered `pair`.
pub fn store_pair(entries: &mut [u16], pair: usize, first: u16, second: u16)
    requires { 2 * pair + 1 < length entries.old }
    ensures { entries.new ≡ sets entries.old (2 * pair) (first ∷ second ∷ []) }
{
    entries[2 * pair] = first;
    entries[2 * pair + 1] = second;
}

// Stores the label at a place as a node's tape number, low word and high word, and gives the place after it.
pub fn read_label(text: &[u8], at: usize, node: usize, tapes: &mut [u16]) -> usize
    requires label_here { LabelHere text.now at }
    requires node_in_bounds { 2 * node + 1 < length tapes.old }
    ensures { (result ≡ at + leading (drop at text.now)) × (tapes.new ≡ sets tapes.old (2 * node) (words (label_at text.now at))) }
{
    let Label { value, end } = number_at(text, at);
    store_pair(tapes, node, (value % 65536) as u16, (value / 65536) as u16);
    end
}
