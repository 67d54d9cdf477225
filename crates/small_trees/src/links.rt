// The table of a tree, from the levels of its nodes. From the last node to the first, `next` has for each level the first node on it that
// comes before any smaller level.
ghost use Rattle.std.specs.Prelude.{◌≡◌, [], ◌∷◌, ◌+◌, ◌*◌, ◌<◌, length, get_or};
ghost use Rattle.std.proofs.lemmas.List.Edits.{sets};
ghost use Rattle.tree.specs.Table.{none};
ghost use Rattle.tree.specs.Forest.{table_of};
ghost use Rattle.small_trees.specs.Sequence.{tree_of_levels};
ghost use Rattle.small_trees.specs.Steps.{Linkable};

const NONE: u16 = 65535;

// Levels 0 to 7, and the one below them, on which no node comes next.
const LEVELS: usize = 9;

// Stores the links of a node, and puts it before the nodes that come after it.
fn link_node(level: usize, node: usize, next: &mut [u16], table: &mut [u16])
    requires level_in_bounds { level + 1 < length next.old }
    requires node_bound { node < 8 }
    requires node_in_bounds { 2 * node + 1 < length table.old }
    ensures { (table.new ≡ sets table.old (2 * node) (get_or next.old (level + 1) 0 ∷ get_or next.old level 0 ∷ [])) × (next.new ≡ sets next.old level (node ∷ none ∷ [])) }
{
    table[2 * node] = next[level + 1];
    table[2 * node + 1] = next[level];
    next[level] = node as u16;
    next[level + 1] = NONE;
}

// Stores the links of every node.
pub fn link(levels: &[usize], table: &mut [u16])
    requires { Linkable levels.now table.old }
    ensures { table.new ≡ table_of (length levels.now) (tree_of_levels levels.now) }
{
    let mut next = [NONE; LEVELS];
    for node in (0..levels.len()).rev() {
        link_node(levels[node], node, &mut next, table);
    }
}
