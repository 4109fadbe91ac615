// Values that hold no others: scalars and references.
// Each asks that its tag stands at the cursor: with that in a struct, `Meets` and `value_at` would name plan and cursor through it, and no contract be shorter.
ghost use Rattle.std.specs.Prelude.{◌+◌, ◌<◌, length};
ghost use Rattle.scanner.specs.Scans.{Answers, scalar_behind, scalar_told};
ghost use Rattle.reader.specs.Texts.{scalar_tag, reference_tag};
ghost use Rattle.reader.specs.Steps.{Fit, TagAt, value_at, Meets};

use crate::cursor::{Cursor, check_room, text_at};
use crate::lookup::node_of;
use crate::table::add_node;
use format::codes::{Code, Refusal};
use format::kind::Kind;
use scanner::Text;

// The text of a scalar whose tag stands at an index: of values in the loop over the pairs in line; of a plan's own value, which stands alone, by a call. In line
// a few spellings are tried first, and what is none of these is looked at again from its beginning.
#[inline(always)]
fn scan<const ALONE: bool>(source: &[u8], at: usize, tag: u8) -> Result<Text, Code>
    requires { at < length source.now }
    ensures { Answers (scalar_behind tag) (scalar_told (at + 1)) source.now (at + 1) result }
{
    if ALONE {
        return scanner::scalar::scalar(source, at + 1, tag);
    }
    scanner::in_line::value(source, at + 1, tag)
}

// A scalar: 8, then 7, then its text, then its node. Whether it takes an ordinal is asked where its kind was just chosen, so that the choice answers it.
#[inline(always)]
pub(crate) fn read_scalar<const ALONE: bool>(
    source: &[u8],
    table: &mut [u64],
    capacity: usize,
    cursor: Cursor,
    tag: u8,
) -> Result<Cursor, Refusal>
    requires fit { Fit source.now table.old capacity cursor }
    requires tag_at { TagAt source.now cursor tag × scalar_tag tag }
    ensures { Meets source.now table.old table.new capacity cursor (value_at source.now capacity cursor) result }
{
    let taken = Kind { tag }.has_ordinal();
    check_room(capacity, cursor)?;
    let text = text_at(scan::<ALONE>(source, cursor.at, tag), cursor.at)?;
    Ok(add_node(table, cursor, tag, text, taken))
}

// A reference: 8, then 7, then its text, then 6, then its node, which says the node named.
pub(crate) fn read_reference(
    source: &[u8],
    table: &mut [u64],
    capacity: usize,
    cursor: Cursor,
    tag: u8,
) -> Result<Cursor, Refusal>
    requires fit { Fit source.now table.old capacity cursor }
    requires tag_at { TagAt source.now cursor tag × reference_tag tag }
    ensures { Meets source.now table.old table.new capacity cursor (value_at source.now capacity cursor) result }
{
    let at = cursor.at;
    check_room(capacity, cursor)?;
    let text = text_at(scanner::number::named(source, at + 1), at)?;
    let named = text.content;
    if named == 0 {
        return Err(Code::NothingNamed.at(at));
    }
    if (cursor.ordinal as u64) < named {
        return Err(Code::NothingNamed.at(at));
    }
    let target = node_of(table, cursor.node, named).unwrap_or(cursor.node);
    let resolved = Text {
        content: named,
        size: 0,
        link: target as u64,
        next: text.next,
    };
    let kind = Kind { tag };
    Ok(add_node(table, cursor, tag, resolved, kind.has_ordinal()))
}
