// The first pass: a text is judged byte by byte, by a state and the count of open brackets, and its labels are counted.
ghost use Rattle.std.specs.Prelude.{◌≡◌, ◌≤◌, length};
ghost use Rattle.newick.specs.Read.{most_bytes};
ghost use Rattle.newick.specs.Steps.{begun, lengthened, parted, step, counts, CountIs};

// What the bytes so far leave: how many brackets are open, how many labels have begun, and what may come next.
#[derive(Clone, Copy)]
pub enum Scan {
    // a subtree is due
    Due {
        depth: usize,
        nodes: usize,
    },
    // the label of a list that was closed is due
    Closed {
        depth: usize,
        nodes: usize,
    },
    // the digits of a label, of the value so far, stand last
    Label {
        depth: usize,
        nodes: usize,
        value: u32,
    },
    // the semicolon stands last
    Ended {
        nodes: usize,
    },
}

// A label begins.
#[tactic(auto, unfolding(crate::specs::Reading::is_digit))]
fn begun(depth: usize, nodes: usize, byte: u8) -> Option<Scan>
    requires { nodes ≤ most_bytes }
    ensures { result ≡ begun depth nodes byte }
{
    if !byte.is_ascii_digit() {
        return None;
    }
    Some(Scan::Label {
        depth,
        nodes: nodes + 1,
        value: u32::from(byte - b'0'),
    })
}

// A label has one more digit.
fn lengthened(depth: usize, nodes: usize, value: u32, digit: u8) -> Option<Scan>
    ensures { result ≡ lengthened depth nodes value digit }
{
    if value == 0 {
        return None;
    }
    let value = value.checked_mul(10)?.checked_add(u32::from(digit))?;
    Some(Scan::Label {
        depth,
        nodes,
        value,
    })
}

// A label has ended.
fn parted(depth: usize, nodes: usize, byte: u8) -> Option<Scan>
    ensures { result ≡ parted depth nodes byte }
{
    match byte {
        b';' if depth == 0 => Some(Scan::Ended { nodes }),
        b',' if depth > 0 => Some(Scan::Due { depth, nodes }),
        b')' if depth > 0 => Some(Scan::Closed {
            depth: depth - 1,
            nodes,
        }),
        _ => None,
    }
}

// One byte is read; None: the text breaks a rule.
#[tactic(auto, unfolding(crate::specs::Steps::step, crate::specs::Reading::is_digit))]
fn step(scan: Scan, byte: u8) -> Option<Scan>
    requires { counts scan ≤ most_bytes }
    ensures { result ≡ step scan byte }
{
    match scan {
        Scan::Due { depth, nodes } if byte == b'(' => Some(Scan::Due {
            depth: depth + 1,
            nodes,
        }),
        Scan::Due { depth, nodes } | Scan::Closed { depth, nodes } => begun(depth, nodes, byte),
        Scan::Label {
            depth,
            nodes,
            value,
        } => {
            if byte.is_ascii_digit() {
                lengthened(depth, nodes, value, byte - b'0')
            } else {
                parted(depth, nodes, byte)
            }
        }
        Scan::Ended { .. } => None,
    }
}

// The count of nodes of the tree whose text this is, where it is that of one.
pub fn count_nodes(text: &[u8]) -> Option<usize>
    requires { length text.now ≤ most_bytes }
    ensures { CountIs text.now result }
{
    let mut scan = Scan::Due { depth: 0, nodes: 0 };
    for &byte in text {
        scan = step(scan, byte)?;
    }
    match scan {
        Scan::Ended { nodes } => Some(nodes),
        _ => None,
    }
}
