// A Bloom filter of keys: which ones a container may have already. A key marks three bits in each of two words, by its hash, and no bit is ever taken back:
// a key that has one of its bits unset is new, and any other may be an earlier one or not.
// `hash` takes a key by its words and the container's first node; `enter` marks a hash in the words lent, whatever their count, and says whether it was marked.
// Nothing is refused: where no word is lent, each hash counts as marked. The reader calls both; what it needs is one law, that no key entered is taken for new
// (`new-key`, proofs/Marking). So the filter decides time and never an answer. A crate of its own, so that an edit of it does not prove the reader again.
#![tactic(auto)]

ghost use Rattle.std.specs.Prelude.{◌≡◌, ◌+◌, ◌*◌, ◌^◌, ◌≤◌, ◌<◌, length, take, drop};
ghost use Rattle.keys.specs.KeyWords.{text_of};
ghost use Rattle.key_filter.specs.Hash.{mixed, spread, half_of, rest_of, mixed_text, start, text_hash, hash_words};
ghost use Rattle.key_filter.specs.Filter.{mask_of, slot_of, Entered};

use keys::KeyWords;

// Odd numbers of 32 bits with no pattern.
const LOW_FACTOR: u64 = 2654435761;

const HIGH_FACTOR: u64 = 2246822519;

const HOLDER_FACTOR: u64 = 3266489917;

// Two words in one: the halves of their exclusive or, each times its factor.
fn mixed(a: u64, b: u64) -> u64
    ensures { result ≡ mixed a b }
{
    let x = a ^ b;
    ((x % 4294967296) * LOW_FACTOR) ^ ((x >> 32) * HIGH_FACTOR)
}

// Where every bit of a word has a say in the high ones.
#[tactic(auto, unfolding(crate::specs::Hash::spread))]
fn spread(x: u64) -> u64
    ensures { result ≡ spread x }
{
    mixed(x >> 32, x)
}

// Four bytes as one number, the lowest first.
#[tactic(auto, unfolding(crate::specs::Hash::half_of))]
fn half(bytes: [u8; 4]) -> u64
    ensures value { result ≡ half_of bytes }
    ensures fits { result < 2 ^ 32 }
{
    u64::from(u32::from_le_bytes(bytes))
}

// Those from an index on; the compiler loads them at once.
fn half_at(source: &[u8], at: usize) -> u64
    requires { at + 4 ≤ length source.now }
    ensures { (result ≡ half_of (drop at source.now)) × (result < 2 ^ 32) }
{
    half([source[at], source[at + 1], source[at + 2], source[at + 3]])
}

// Two halves as one word.
fn halves_at(source: &[u8], low: usize, high: usize) -> u64
    requires { (low + 4 ≤ length source.now) × (high + 4 ≤ length source.now) }
    ensures { result ≡ half_of (drop low source.now) + half_of (drop high source.now) * 2 ^ 32 }
{
    half_at(source, low) + half_at(source, high) * 4294967296
}

// So many bytes from an index on as one word: two halves that may overlap; of fewer than four bytes the first, the middle and the last.
fn rest_at(source: &[u8], at: usize, count: usize) -> u64
    requires { (at + count ≤ length source.now) × (0 < count) }
    ensures { result ≡ rest_of (take count (drop at source.now)) }
{
    let end = at + count;
    if 4 <= count {
        return halves_at(source, at, end - 4);
    }
    half([source[at], source[at + count / 2], source[end - 1], 0])
}

// A text's words, mixed in one by one.
// Not over slices (`split_first_chunk`, `KeyWords::text`): tried, and `ton_read` of keys of 64 bytes then took 5.06 instructions a byte, not 4.55.
fn mixed_text(source: &[u8], offset: usize, size: usize, start: u64) -> u64
    requires { offset + size ≤ length source.now }
    ensures { result ≡ mixed_text start (take size (drop offset source.now)) }
{
    let mut hash = start;
    let mut at = offset;
    let mut left = size;
    while 8 <= left {
        hash = mixed(hash, halves_at(source, at, at + 4));
        at += 8;
        left -= 8;
    }
    if left == 0 {
        return hash;
    }
    mixed(hash, rest_at(source, at, left))
}

// What the hash of a key begins with: its container, and the length of a string.
#[tactic(auto, unfolding(crate::specs::Hash::start))]
fn start(holder: usize, size: usize) -> u64
    ensures { result ≡ start holder size }
{
    ((holder as u64 % 4294967296) * HOLDER_FACTOR) ^ ((size as u64 % 65536) * 281474976710656)
}

// The hash of a string; one that does not stand in the source counts as empty.
fn text_hash(source: &[u8], holder: usize, offset: usize, size: usize) -> u64
    ensures { result ≡ text_hash holder (text_of source.now offset size) }
{
    if source.len() < offset {
        return spread(start(holder, 0));
    }
    if source.len() - offset < size {
        return spread(start(holder, 0));
    }
    spread(mixed_text(source, offset, size, start(holder, size)))
}

// The hash of a key of the container whose first key stands at node `holder`: of its text, or of its pattern where its kind has none.
pub fn hash(source: &[u8], holder: usize, key: KeyWords) -> u64
    ensures { result ≡ hash_words source.now holder key }
{
    if key.has_text() {
        return text_hash(source, holder, key.content as usize, key.size as usize);
    }
    spread(mixed(start(holder, 0), key.content))
}

// The bits of a hash in each of its words.
#[tactic(auto, unfolding(crate::specs::Filter::mask_of, crate::specs::Filter::bit_of))]
fn mask_of(hash: u64) -> u64
    ensures { result ≡ mask_of hash }
{
    (1 << ((hash >> 26) % 64)) | (1 << ((hash >> 20) % 64)) | (1 << ((hash >> 14) % 64))
}

// The word that a number picks among so many.
fn slot_of(count: usize, number: u64) -> usize
    requires { 0 < count }
    ensures { (result ≡ slot_of count number) × (result < count) }
{
    number as usize & (count - 1)
}

// Whether a hash is marked already, which it then is. Where no word is lent each counts as marked.
pub fn enter(filter: &mut [u64], hash: u64) -> bool
    ensures { Entered filter.old filter.new hash result }
{
    let count = filter.len();
    if count == 0 {
        return true;
    }
    let one = slot_of(count, hash >> 44);
    let two = slot_of(count, hash >> 32);
    let mask = mask_of(hash);
    let a = filter[one];
    let b = filter[two];
    filter[one] = a | mask;
    filter[two] = b | mask;
    a & b & mask == mask
}
