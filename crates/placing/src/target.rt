// The array asked for and the place in it, by the table of the plan that was read.
ghost use Rattle.std.specs.Prelude.{◌≡◌, ◌+◌, ◌*◌, ◌≤◌, length};
ghost use Rattle.format.specs.Table.{width};
ghost use Rattle.placing.specs.Words.{pair_node, carriers, target_answer, array_words, Walkable, GapBounds, gap_answer, gap_words};

use format::table::{ARRAY_TAG, LINK, ORDINAL, PAIR_END, WIDTH};

// An array's count of pairs, and its ordinal.
#[derive(Clone, Copy)]
pub struct ArrayWords {
    pub count: u64,
    pub ordinal: u64,
}

// A gap among an array's pairs: the node of the key before which the new pair goes, or the one behind the array, and the ordinal that the new value takes.
#[derive(Clone, Copy)]
pub struct GapWords {
    pub node: usize,
    pub ordinal: u64,
}

// The array at a node; none is 11, "index names no `a` node".
#[tactic(auto, unfolding(crate::specs::Words::array_words))]
pub(crate) fn array_at(table: &[u64], nodes: usize, node: usize) -> Option<ArrayWords>
    requires { nodes * width ≤ length table.now }
    ensures { target_answer result ≡ array_words table.now nodes node }
{
    if nodes <= node {
        return None;
    }
    let k = node * WIDTH;
    if table[k] != ARRAY_TAG {
        return None;
    }
    Some(ArrayWords {
        count: table[k + LINK],
        ordinal: table[k + ORDINAL],
    })
}

// Of the pairs that stand from node `first` on, the node of the key at a place.
fn pair_node(table: &[u64], first: usize, place: usize) -> usize
    requires { Walkable table.now first place }
    ensures { result ≡ pair_node table.now first place }
{
    let mut node = first;
    for _ in 0..place {
        node = table[node * WIDTH + PAIR_END] as usize;
    }
    node
}

// How many of so many nodes carry an ordinal.
fn carried(table: &[u64], first: usize, count: usize) -> usize
    requires { (first + count) * width ≤ length table.now }
    ensures { (result ≡ carriers table.now first count) × (result ≤ count) }
{
    let mut taken = 0;
    for i in 0..count {
        if table[(first + i) * WIDTH + ORDINAL] != 0 {
            taken += 1;
        }
    }
    taken
}

// The gap at a place; none is 12, "place above the array's count". The new ordinal is the array's, and one, and one for each node between the array and the gap
// that carries one.
#[tactic(auto, unfolding(crate::specs::Words::gap_words))]
pub(crate) fn gap_at(
    table: &[u64],
    node: usize,
    array: ArrayWords,
    place: usize,
) -> Option<GapWords>
    requires { GapBounds table.now node array.count array.ordinal place }
    ensures { gap_answer result ≡ gap_words table.now node array.count array.ordinal place }
{
    if array.count < place as u64 {
        return None;
    }
    let first = node + 1;
    let behind = pair_node(table, first, place);
    let taken = carried(table, first, behind - first);
    Some(GapWords {
        node: behind,
        ordinal: array.ordinal + taken as u64 + 1,
    })
}
