// Keys by the words of their nodes, each with the source that it stands in: the key at a node (`key_at`), and whether a key equals one of those of the pairs
// that stand in a table (`has_key`), which is told whether the container is an array: in an object a key is always a string, in an array it is an integer
// where its kind has no text (`KeyWords::has_text`).
// Takes any table, nodes and words, and refuses nothing: a node that the table has not is all zeros, a text that does not stand in its source is empty, and
// a walk ends where the next pair would not stand in the table behind the last.
// Reader and placing call it, key_filter takes its words. It lies below them, so that an edit of the key test proves its own layer.
// The two sources have lifetimes of their own, as those of `bytes_at::same_bytes`: the kit's borrow checker covers no call whose two lent slices must have one.
#![tactic(auto)]

ghost use Rattle.std.specs.Prelude.{◌≡◌, ◌-◌, min};
ghost use Rattle.format.specs.Kind.{has_text};
ghost use Rattle.format.specs.Keys.{same_key, has_key};
ghost use Rattle.format.specs.Reading.{capacity_of};
ghost use Rattle.keys.specs.KeyWords.{text_of, key_words_in, says_text, key_said, keys_said};

use bytes_at::same_bytes;
use format::kind::Kind;
use format::table::{CONTENT, PAIR_END, SIZE, WIDTH};

// A key by words 0, 2 and 3 of its node.
#[derive(Clone, Copy)]
pub struct KeyWords {
    pub tag: u64,
    pub content: u64,
    pub size: u64,
}

impl KeyWords {
    // Whether its words tell a text. Word 0 may be any number: one above a byte is no kind's tag.
    pub fn has_text(self) -> bool
        ensures { result ≡ has_text self.tag }
    {
        let Ok(tag) = u8::try_from(self.tag) else {
            return false;
        };
        Kind { tag }.has_text()
    }

    // The text that they tell; none where it does not stand in the source.
    #[tactic(auto, unfolding(crate::specs::KeyWords::text_of))]
    fn text(self, source: &[u8]) -> &[u8]
        ensures { result.now ≡ text_of source.now self.content self.size }
    {
        let from = self.content as usize;
        let to = from.saturating_add(self.size as usize);
        source.get(from..to).unwrap_or(&[])
    }
}

// The key that stands at a node; every word of a node that the table has not is 0, as `key_words_in` says.
#[tactic(auto, unfolding(crate::specs::KeyWords::key_words_in))]
pub fn key_at(table: &[u64], node: usize) -> KeyWords
    ensures { result ≡ key_words_in table.now node }
{
    if table.len() / WIDTH <= node {
        return KeyWords {
            tag: 0,
            content: 0,
            size: 0,
        };
    }
    let k = node * WIDTH;
    KeyWords {
        tag: table[k],
        content: table[k + CONTENT],
        size: table[k + SIZE],
    }
}

// Whether the words of a key tell a text: in an object always, in an array where its kind has one.
#[tactic(auto, unfolding(crate::specs::KeyWords::says_text))]
fn says_text(of_array: bool, key: KeyWords) -> bool
    ensures { result ≡ says_text of_array key }
{
    !of_array || key.has_text()
}

// Whether two keys of one container are equal. Patterns are compared before the other's kind is looked at, so that the walk over integers seldom looks.
// A key and its source stay apart: a struct of both would be made at each step of the walk in `has_key`, for this one call.
fn same_key(of_array: bool, source: &[u8], a: KeyWords, other: &[u8], b: KeyWords) -> bool
    ensures { result ≡ same_key (key_said of_array source.now a) (key_said of_array other.now b) }
{
    if !says_text(of_array, a) {
        return a.content == b.content && !says_text(of_array, b);
    }
    says_text(of_array, b) && same_bytes(a.text(source), b.text(other))
}

// The last node before an end that the table has room for, or 0: no pair begins before node 0, so no Option is asked for.
fn last_node(table: &[u64], end: usize) -> usize
    ensures { result ≡ min end (capacity_of table.now) - 1 }
{
    end.min(table.len() / WIDTH).saturating_sub(1)
}

// Whether a key equals one of those of the pairs that stand in the table from node `first` up to node `end`. The key may stand in another source than these.
pub fn has_key(
    of_array: bool,
    source: &[u8],
    table: &[u64],
    first: usize,
    end: usize,
    other: &[u8],
    key: KeyWords,
) -> bool
    ensures { result ≡ has_key (key_said of_array other.now key) (keys_said of_array source.now table.now first end) }
{
    let last = last_node(table, end);
    let mut i = first;
    while i < last {
        if same_key(of_array, other, key, source, key_at(table, i)) {
            return true;
        }
        let next = table[i * WIDTH + PAIR_END] as usize;
        if next <= i {
            return false;
        }
        i = next;
    }
    false
}
