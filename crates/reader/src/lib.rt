// Reading: takes a plan and any table, and gives the nodes written and the ordinals taken, the table filled; or refuses, 1 to 10 with a position, and every
// word of the table is zero. Inside a refusal leaves the table as it falls, and `read` clears it. Placing, editor, nodes and the C interface call `read`; all
// else is private.
// No model stands between code and definition: the steps' contracts (specs/Steps) stand over `read_value`, `read_pairs` and `read_key` of format, a cursor's
// position being `drop at source`. A good step hands over the value read, and says what the table holds for every naming of the ordinals so far; `read` puts
// the definition's own naming in (proofs/WholeSteps).
// The two searches, for equal keys (seen.rt) and for the node of an ordinal (lookup.rt), have narrow contracts that do not say how they search.
#![tactic(auto)]

ghost use Rattle.std.specs.Prelude.{◌≤◌};
ghost use Rattle.format.specs.Reading.{capacity_of};
ghost use Rattle.reader.specs.Promise.{Reads};
ghost use Rattle.reader.specs.Steps.{Whole};

use crate::cursor::Cursor;
use format::codes::{Code, Refusal};
use format::limits::{DEPTH_LIMIT, SOURCE_LIMIT};
use format::table::WIDTH;

mod cursor;
mod head;
mod key;
mod leaf;
mod lookup;
mod seen;
mod table;
mod value;

// From these lengths on a plan has a filter of its keys, a larger and a large one: to clear it costs little beside reading so long a plan.
const FILTER_FROM: usize = 96;

const LARGER_FROM: usize = 4096;

const LARGE_FROM: usize = 16384;

// What a plan read counts: the nodes written and the ordinals taken.
#[derive(Clone, Copy, Debug, PartialEq, Eq)]
pub struct Counts {
    pub nodes: usize,
    pub ordinals: usize,
}

// A whole plan; a refusal leaves the table as it falls.
fn read_whole(source: &[u8], table: &mut [u64], filter: &mut [u64]) -> Result<Cursor, Refusal>
    ensures { Whole source.now table.old table.new (capacity_of table.old) result }
{
    if SOURCE_LIMIT < source.len() {
        return Err(Code::SourceTooLong.at(0));
    }
    let start = Cursor {
        at: 0,
        node: 0,
        ordinal: 0,
        levels: DEPTH_LIMIT,
    };
    let capacity = table.len() / WIDTH;
    let end = value::read_own(source, table, filter, capacity, start)?;
    if end.at < source.len() {
        return Err(Code::BytesBehind.at(end.at));
    }
    Ok(end)
}

// A plan with a filter of so many words; none for a short plan, whose keys are few, so that each is looked for among the pairs.
fn read_with<const N: usize>(source: &[u8], table: &mut [u64]) -> Result<Cursor, Refusal>
    requires { N ≤ 4096 }
    ensures { Whole source.now table.old table.new (capacity_of table.old) result }
{
    let mut filter = [0u64; N];
    read_whole(source, table, &mut filter)
}

// A plan with as large a filter as its length asks for: a word for 32 bytes at least, so that a new key is seldom taken for marked.
fn read_by_length(source: &[u8], table: &mut [u64]) -> Result<Cursor, Refusal>
    ensures { Whole source.now table.old table.new (capacity_of table.old) result }
{
    if source.len() < FILTER_FROM {
        return read_with::<0>(source, table);
    }
    if source.len() < LARGER_FROM {
        return read_with::<128>(source, table);
    }
    if source.len() < LARGE_FROM {
        return read_with::<1024>(source, table);
    }
    read_with::<4096>(source, table)
}

// Reads a plan into the table; a refusal makes every word of it zero.
pub fn read(source: &[u8], table: &mut [u64]) -> Result<Counts, Refusal>
    ensures { Reads source.now table.old table.new result }
{
    match read_by_length(source, table) {
        Ok(end) => Ok(Counts {
            nodes: end.node,
            ordinals: end.ordinal,
        }),
        Err(refusal) => {
            tables::clear(table);
            Err(refusal)
        }
    }
}
