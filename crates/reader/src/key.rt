// A key of a container.
ghost use Rattle.std.specs.Prelude.{◌≡◌, List};
ghost use Rattle.format.specs.Kind.{is_tag_of, key_kinds};
ghost use Rattle.format.specs.Syntax.{Key};
ghost use Rattle.reader.specs.Texts.{is_array_tag};
ghost use Rattle.reader.specs.KeysSeen.{Walk};
ghost use Rattle.reader.specs.Steps.{Fit, Earlier, key_at, MeetsKey, Remembers};

use crate::cursor::{Cursor, text_at};
use crate::seen::{Pairs, Seen};
use crate::table::add_node;
use format::codes::{Code, Refusal};
use format::kind::Kind;
use keys::KeyWords;

// Whether a tag may begin a key of a container with this tag.
#[tactic(auto, unfolding(crate::specs::Texts::is_array_tag))]
fn key_allowed(tag: u8, container: u8) -> bool
    ensures { result ≡ is_tag_of (key_kinds (is_array_tag container)) tag }
{
    let kind = Kind { tag };
    if !kind.may_be_key() {
        return false;
    }
    if tag == Kind::STRING {
        return true;
    }
    container == Kind::ARRAY
}

// A key of the container whose pairs begin at node `first`: 4, then 7, then the text, then 9.
#[inline(always)]
pub(crate) fn read_key(
    source: &[u8],
    table: &mut [u64],
    filter: &mut [u64],
    capacity: usize,
    container: u8,
    first: usize,
    seen: Seen,
    cursor: Cursor,
) -> Result<Cursor, Refusal>
    requires fit { Fit source.now table.old capacity cursor }
    requires walk { Walk source.now table.old first cursor.node }
    ensures meets_key { (earlier : List Key)
        → Earlier (is_array_tag container) source.now table.old filter.old first cursor.node seen earlier
        → MeetsKey (is_array_tag container) source.now table.old table.new capacity cursor
        (key_at source.now capacity container earlier cursor) result }
    ensures remembers { Remembers (is_array_tag container) source.now table.old table.new filter.old
        filter.new first cursor.node seen result }
{
    let at = cursor.at;
    let node = cursor.node;
    if source.len() <= at {
        return Err(Code::TextUnfit.at(at));
    }
    let tag = source[at];
    if !key_allowed(tag, container) {
        return Err(Code::KeyNotAllowed.at(at));
    }
    if capacity <= node {
        return Err(Code::TableFull.at(at));
    }
    let text = text_at(scanner::in_line::key(source, at + 1, tag), at)?;
    let key = KeyWords {
        tag: tag as u64,
        content: text.content,
        size: text.size,
    };
    let of_array = container == Kind::ARRAY;
    let pairs = Pairs {
        source,
        table,
        first,
        node,
    };
    if pairs.has(of_array, filter, key, seen) {
        return Err(Code::KeyRepeated.at(at));
    }
    Ok(add_node(table, cursor, tag, text, false))
}
