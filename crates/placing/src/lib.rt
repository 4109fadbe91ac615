// Where inserting puts a pair. Takes any plan, node, place and texts, and any table; reads the plan itself, so that it asks nothing of the table, and takes the
// steps before writing in the paper's order. Gives the spot, the table being that of the plan given; or refuses as inserting does whatever room the output
// has: 1 to 10 with reading's position, or 11, 12, 13, 9, 8 or 7 at 0, every word of the table zero. The editor calls `locate`.
// Facts come from the table (the array's count, ordinal and keys, and where its pairs begin), positions from the bytes: no tag's position stands in the table.
#![tactic(auto)]

ghost use Rattle.placing.specs.Locating.{Locates};

use crate::spot::find_spot;
use format::codes::Refusal;
use rewriting::splice::Splice;

mod pass;
mod spot;
mod steps;
mod target;
mod texts;

// The steps of inserting up to writing: the table is that of the plan given; a refusal makes every word of it zero.
pub fn locate(
    source: &[u8],
    array_node: usize,
    pair_index: usize,
    key: &[u8],
    value: &[u8],
    table: &mut [u64],
) -> Result<Splice, Refusal>
    ensures { Locates source.now array_node pair_index key.now value.now
        table.old table.new result }
{
    // By `let .. else` and not by `?`, as each step of inserting (spot.rt).
    let reading = reader::read(source, table);
    let Ok(counts) = reading else {
        return Err(reading.unwrap_err());
    };
    let placed = find_spot(
        source,
        table,
        counts.nodes,
        array_node,
        pair_index,
        key,
        value,
    );
    let Ok(_) = placed else {
        tables::clear(table);
        return placed;
    };
    placed
}
