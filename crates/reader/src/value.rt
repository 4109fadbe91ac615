// Values and pairs, in a cycle: a container's pairs hold values, and the bytes left fall at each call.
// Plan, table, filter and room stay parameters: as fields of a reader with these as methods it proves, and lists take 6 %, strings 8 % more instructions.
ghost use Rattle.key_filter.specs.Filter.{Grows};
ghost use Rattle.reader.specs.Texts.{container_tag};
ghost use Rattle.reader.specs.Steps.{Fit, TagAt, value_at, pairs_at, Meets, MeetsPairs};

use crate::cursor::{Cursor, check_room, text_at};
use crate::head::head;
use crate::key::read_key;
use crate::leaf::{read_reference, read_scalar};
use crate::seen::{Seen, next};
use crate::table::{open_node, put_end};
use bytes_at::byte_is;
use format::codes::{Code, Refusal};
use format::kind::Kind;
use keys::key_at;

// A value: 2 or 3, then by its kind. "The kind of a byte decides everything that follows". In line in the loop over the pairs, by hints here and on what it
// calls for a scalar: LLVM goes by size and call sites, and a plan's own value is one more.
#[cycle(read_container_read_pairs_read_value)]
#[inline(always)]
pub(crate) fn read_value(
    source: &[u8],
    table: &mut [u64],
    filter: &mut [u64],
    capacity: usize,
    cursor: Cursor,
) -> Result<Cursor, Refusal>
    requires { Fit source.now table.old capacity cursor }
    ensures meets { Meets source.now table.old table.new capacity cursor (value_at source.now capacity cursor) result }
    ensures grows { Grows filter.old filter.new }
{
    let at = cursor.at;
    if source.len() <= at {
        return Err(Code::TextUnfit.at(at));
    }
    let tag = source[at];
    match tag {
        Kind::NULL | Kind::BOOL | Kind::INT | Kind::FLOAT | Kind::STRING => {
            read_scalar::<false>(source, table, capacity, cursor, tag)
        }
        // what a call returns lies in memory: taken apart, it does not keep the answers made in line there too
        Kind::ARRAY | Kind::OBJECT => Ok(read_container(
            source, table, filter, capacity, cursor, tag,
        )?),
        Kind::OBJECT_REFERENCE | Kind::VARIABLE_REFERENCE => {
            Ok(read_reference(source, table, capacity, cursor, tag)?)
        }
        _ => Err(Code::TagUnknown.at(at)),
    }
}

// A plan's own value, around all others. A scalar is read for itself; containers and references as any value is.
pub(crate) fn read_own(
    source: &[u8],
    table: &mut [u64],
    filter: &mut [u64],
    capacity: usize,
    cursor: Cursor,
) -> Result<Cursor, Refusal>
    requires { Fit source.now table.old capacity cursor }
    ensures meets { Meets source.now table.old table.new capacity cursor (value_at source.now capacity cursor) result }
    ensures grows { Grows filter.old filter.new }
{
    if cursor.at < source.len() {
        let tag = source[cursor.at];
        if let Kind::NULL | Kind::BOOL | Kind::INT | Kind::FLOAT | Kind::STRING = tag {
            return read_scalar::<true>(source, table, capacity, cursor, tag);
        }
    }
    read_value(source, table, filter, capacity, cursor)
}

// A container: 8, then 7, then its head, its pairs and its closing brace; its node's end is known last.
#[cycle(read_container_read_pairs_read_value)]
pub(crate) fn read_container(
    source: &[u8],
    table: &mut [u64],
    filter: &mut [u64],
    capacity: usize,
    cursor: Cursor,
    tag: u8,
) -> Result<Cursor, Refusal>
    requires fit { Fit source.now table.old capacity cursor }
    requires tag_at { TagAt source.now cursor tag × container_tag tag }
    ensures meets { Meets source.now table.old table.new capacity cursor (value_at source.now capacity cursor) result }
    ensures grows { Grows filter.old filter.new }
{
    let at = cursor.at;
    check_room(capacity, cursor)?;
    let text = text_at(head(source, at, tag), at)?;
    let inside = open_node(table, cursor, tag, text);
    let last = read_pairs(source, table, filter, capacity, tag, inside, text.link)?;
    let end = last.at;
    if !byte_is(source, end, b'}') {
        return Err(Code::TextUnfit.at(cursor.at));
    }
    put_end(table, cursor.node, last.node as u64);
    Ok(Cursor {
        at: end + 1,
        node: last.node,
        ordinal: last.ordinal,
        levels: cursor.levels,
    })
}

// So many pairs of a container with this tag.
#[cycle(read_container_read_pairs_read_value)]
fn read_pairs(
    source: &[u8],
    table: &mut [u64],
    filter: &mut [u64],
    capacity: usize,
    container: u8,
    start: Cursor,
    count: u64,
) -> Result<Cursor, Refusal>
    requires { Fit source.now table.old capacity start }
    ensures meets_pairs { MeetsPairs source.now table.old table.new capacity start
        (pairs_at source.now capacity container count start) result }
    ensures grows { Grows filter.old filter.new }
{
    let first = start.node;
    let mut cursor = start;
    let mut seen = Seen::Nothing;
    for _ in 0..count {
        let node = cursor.node;
        let behind = read_key(
            source, table, filter, capacity, container, first, seen, cursor,
        )?;
        seen = next(seen, key_at(table, node));
        cursor = read_value(source, table, filter, capacity, behind)?;
    }
    Ok(cursor)
}
