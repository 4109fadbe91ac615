// The node table: six words to a node, and nodes named by index. It is lent by C as words, so it is no array of structs.
ghost use Rattle.std.specs.Prelude.{◌≡◌, ◌+◌, ◌*◌, ◌≤◌, [], ◌∷◌, length};
ghost use Rattle.std.proofs.lemmas.List.Edits.{sets};
ghost use Rattle.format.specs.Table.{width, end_word, words};
ghost use Rattle.reader.specs.Nodes.{node_of, NodeAdded, NodeOpened};

use crate::cursor::Cursor;
use format::kind::Kind;
use format::table::{CONTENT, END, LINK, ORDINAL, SIZE, WIDTH};
use scanner::Text;

// Writes the words of a node.
fn put_node(table: &mut [u64], node: usize, tag: u8, ordinal: u64, text: Text, end: u64)
    requires { node * width + width ≤ length table.old }
    ensures { table.new ≡ sets table.old (node * width) (words (node_of tag ordinal end text)) }
{
    let k = node * WIDTH;
    table[k] = tag as u64;
    table[k + ORDINAL] = ordinal;
    table[k + CONTENT] = text.content;
    table[k + SIZE] = text.size;
    table[k + LINK] = text.link;
    table[k + END] = end;
}

// Writes the end of a node, once it is known where it ends.
pub(crate) fn put_end(table: &mut [u64], node: usize, end: u64)
    requires { node * width + width ≤ length table.old }
    ensures { table.new ≡ sets table.old (node * width + end_word) (end ∷ []) }
{
    table[node * WIDTH + END] = end;
}

// Writes the node of a key or of a value, with the next ordinal if it takes one, as if it held no others; the cursor behind it.
pub(crate) fn add_node(
    table: &mut [u64],
    cursor: Cursor,
    tag: u8,
    text: Text,
    taken: bool,
) -> Cursor
    requires { (cursor.node * width + width ≤ length table.old) × (cursor.ordinal ≤ cursor.node) }
    ensures { NodeAdded table.old table.new cursor tag text taken result }
{
    let node = cursor.node;
    let mut ordinal = cursor.ordinal;
    let mut own = 0;
    if taken {
        ordinal += 1;
        own = ordinal;
    }
    put_node(table, node, tag, own as u64, text, (node + 1) as u64);
    Cursor {
        at: text.next,
        node: node + 1,
        ordinal,
        levels: cursor.levels,
    }
}

// Writes the node of a container, when its head is read, so that nodes stand in the order of their tags. Its end is written once its brace is read.
// The cursor at its first pair.
pub(crate) fn open_node(table: &mut [u64], cursor: Cursor, tag: u8, text: Text) -> Cursor
    requires { (cursor.node * width + width ≤ length table.old) × (cursor.ordinal ≤ cursor.node) × (1 ≤ cursor.levels) }
    ensures { NodeOpened table.old table.new cursor tag text result }
{
    let kind = Kind { tag };
    let inside = add_node(table, cursor, tag, text, kind.has_ordinal());
    Cursor {
        at: inside.at,
        node: inside.node,
        ordinal: inside.ordinal,
        levels: cursor.levels - 1,
    }
}
