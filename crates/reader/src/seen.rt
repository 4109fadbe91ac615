// Whether a key equals an earlier one of its container. As long as its keys are integers that rise, a key costs one comparison, by rank. The first that does
// not rise, or is a string, has all keys of the container marked in the filter (crates/key_filter): a key that is not marked is new, and one that is marked is
// looked for among the pairs (`has_key`, crates/keys). So the filter decides time and never an answer, and reading's promise does not speak of it.
// The loop over the pairs carries what is known of the keys (`Seen`) from key to key, and knows nothing else of this.
ghost use Rattle.std.specs.Prelude.{◌≡◌, ◌+◌, ◌*◌, ◌≤◌, length};
ghost use Rattle.format.specs.Table.{width};
ghost use Rattle.format.specs.Keys.{has_key};
ghost use Rattle.keys.specs.KeyWords.{key_said, keys_said};
ghost use Rattle.reader.specs.KeysSeen.{rank, key_or, Walk, MarkedAll, Tested, unmarked_from, rises, next};

use format::table::{INT_TAG, PAIR_END, WIDTH};
use keys::{KeyWords, has_key, key_at};

// What is known of the keys so far: there is none; no integer among them has a higher rank; all are marked.
#[derive(Clone, Copy)]
pub enum Seen {
    Nothing,
    Upto(u64),
    Marked,
}

// The place of an integer's pattern in the order of the integers.
fn rank(pattern: u64) -> u64
    ensures { result ≡ rank pattern }
{
    std::num::wrapping_add_u64(pattern, 9223372036854775808)
}

// Whether an integer key is above all before, where only such came.
#[tactic(auto, unfolding(crate::specs::KeysSeen::rises))]
fn rises(seen: Seen, key: KeyWords) -> bool
    ensures { result ≡ rises seen key }
{
    if key.tag != INT_TAG {
        return false;
    }
    match seen {
        Seen::Nothing => true,
        Seen::Upto(top) => top < rank(key.content),
        Seen::Marked => false,
    }
}

// What is known after one key more.
#[tactic(auto, unfolding(crate::specs::KeysSeen::next))]
pub(crate) fn next(seen: Seen, key: KeyWords) -> Seen
    ensures { result ≡ next seen key }
{
    if rises(seen, key) {
        return Seen::Upto(rank(key.content));
    }
    Seen::Marked
}

// Where the pairs begin whose keys are not marked, of those from node `first` up to `node`.
fn unmarked_from(seen: Seen, first: usize, node: usize) -> usize
    ensures { result ≡ unmarked_from seen first node }
{
    match seen {
        Seen::Nothing => first,
        Seen::Upto(_) => first,
        Seen::Marked => node,
    }
}

// The pairs of a container that were read so far: they stand from node `first` up to `node`, which the table has. `mark` and `has_key` are in line by hints: called,
// each key would lay this out in memory, and rising integers cost 4 % more instructions.
#[derive(Clone, Copy)]
pub(crate) struct Pairs<'a> {
    pub(crate) source: &'a [u8],
    pub(crate) table: &'a [u64],
    pub(crate) first: usize,
    pub(crate) node: usize,
    ghost fits: { node * width ≤ length table.now },
    ghost walk: { ∥ Walk source.now table.now first node ∥₁ },
}

impl Pairs<'_> {
    // The key of the pair at node `i`, or this one behind the last pair.
    fn key_or(&self, i: usize, key: KeyWords) -> KeyWords
        ensures { result ≡ key_or self.now.table.now i self.now.node key }
    {
        if i < self.node {
            return key_at(self.table, i);
        }
        key
    }

    // Marks the keys that are not marked, and then this one: whether it was already. Keys are hashed in one place only: with this one hashed behind a `while`
    // over the pairs, string keys and falling integers take 5 % more instructions.
    #[inline(always)]
    fn mark(&self, filter: &mut [u64], key: KeyWords, seen: Seen) -> bool
        ensures { MarkedAll self.now.source.now self.now.table.now filter.old filter.new self.now.first self.now.node key seen result }
    {
        let mut i = unmarked_from(seen, self.first, self.node);
        loop {
            let hash = key_filter::hash(self.source, self.first, self.key_or(i, key));
            let known = key_filter::enter(filter, hash);
            if self.node <= i {
                return known;
            }
            i = self.table[i * WIDTH + PAIR_END] as usize;
        }
    }

    // Whether a key equals one of theirs, looked for from pair to pair.
    #[inline(always)]
    fn has_key(&self, of_array: bool, key: KeyWords) -> bool
        ensures { result ≡ has_key (key_said of_array self.now.source.now key)
            (keys_said of_array self.now.source.now self.now.table.now self.now.first self.now.node) }
    {
        has_key(
            of_array,
            self.source,
            self.table,
            self.first,
            self.node,
            self.source,
            key,
        )
    }

    // Whether a key equals one of theirs.
    pub(crate) fn has(&self, of_array: bool, filter: &mut [u64], key: KeyWords, seen: Seen) -> bool
        ensures { Tested of_array self.now.source.now self.now.table.now filter.old filter.new self.now.first self.now.node key seen result }
    {
        if rises(seen, key) {
            return false;
        }
        if filter.len() == 0 {
            return self.has_key(of_array, key);
        }
        if !self.mark(filter, key, seen) {
            return false;
        }
        self.has_key(of_array, key)
    }
}
