// Where a pair goes in the bytes of a plan that was read.
ghost use Rattle.placing.specs.Placing.{Given, FindsSpot, HeadAhead, BehindHead, SpotAhead, SpotIs};

use crate::pass::pass;
use crate::steps::{new_key, shallow, two_more};
use crate::target::{array_at, gap_at};
use crate::texts::pair_texts;
use format::codes::{Code, Refusal};
use format::table::WIDTH;
use rewriting::splice::{Renumbering, Splice};
use tokens::token;

// The index behind the array's head, whose tag stands at an index.
fn behind_head(source: &[u8], at: usize) -> usize
    requires { HeadAhead source.now at }
    ensures { (h : HeadAhead source.now at) → BehindHead source.now h.rest result }
{
    let Ok(text) = token(source, at) else {
        // No token of a plan that was read is unfit.
        return at;
    };
    text.next
}

// The gap behind so many nodes of the array whose tag stands at an index: nothing is left out there, and references from an ordinal on rise by one.
fn spot_at(source: &[u8], at: usize, nodes: usize, count: u64, ordinal: u64) -> Splice
    requires { SpotAhead source.now at nodes }
    ensures { (a : SpotAhead source.now at nodes) → SpotIs source.now a.head.rest a.rest at count ordinal result }
{
    let inside = behind_head(source, at);
    let reached = pass(source, inside, nodes);
    let gap = reached.at;
    let renumbering = Renumbering {
        from: ordinal,
        down: 0,
        up: 1,
    };
    Splice {
        at,
        inside,
        from: gap,
        to: gap,
        count,
        renumbering,
    }
}

// The steps between reading and writing, in the order 11, 12, 13, 9, 8, 7. Not by `?`: "each step's answer enum is taken apart by let .. else" is a fixed form.
pub(crate) fn find_spot(
    source: &[u8],
    table: &[u64],
    nodes: usize,
    array_node: usize,
    pair_index: usize,
    key: &[u8],
    value: &[u8],
) -> Result<Splice, Refusal>
    requires { Given source.now table.now nodes }
    ensures { FindsSpot source.now table.now array_node pair_index key.now value.now result }
{
    let Some(array) = array_at(table, nodes, array_node) else {
        return Err(Code::NoArray.at(0));
    };
    let Some(gap) = gap_at(table, array_node, array, pair_index) else {
        return Err(Code::NoPlace.at(0));
    };
    let Some(words) = pair_texts(key, value) else {
        return Err(Code::PairUnfit.at(0));
    };
    let Ok(()) = new_key(source, table, array_node, key, words) else {
        return Err(Code::KeyRepeated.at(0));
    };
    let reached = pass(source, 0, array_node);
    let Ok(()) = shallow(reached.around) else {
        return Err(Code::TooDeep.at(0));
    };
    let Ok(()) = two_more(nodes, table.len() / WIDTH) else {
        return Err(Code::TableFull.at(0));
    };
    let first = array_node + 1;
    Ok(spot_at(
        source,
        reached.at,
        gap.node - first,
        array.count + 1,
        gap.ordinal,
    ))
}
