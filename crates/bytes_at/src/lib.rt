// Bytes of a source by their index: takes bytes and any index, and gives whether one byte, or two, stand there; or takes two texts and gives whether they
// are the same. Past the end stands no byte, so the answer is no; nothing is refused. For all who look at bytes: floats, scanner, keys, reader, rewriting
// and placing. It lies below the scanner, so that an edit of it proves its own layer.
#![tactic(auto)]

ghost use Rattle.std.specs.Prelude.{◌≡◌, ◌&&◌, ◌+◌, eqb};
ghost use Rattle.format.specs.Bytes.{same_bytes};
ghost use Rattle.bytes_at.specs.ByteAt.{byte_at};

// Whether the byte stands at an index.
#[tactic(auto, unfolding(crate::specs::ByteAt::byte_at))]
pub fn byte_is(source: &[u8], at: usize, b: u8) -> bool
    ensures { result ≡ eqb (byte_at source.now at) b }
{
    source.get(at) == Some(&b)
}

// Whether the two bytes stand at an index.
pub fn bytes_are(source: &[u8], at: usize, first: u8, second: u8) -> bool
    ensures { result ≡ (eqb (byte_at source.now at) first && eqb (byte_at source.now (at + 1)) second) }
{
    byte_is(source, at, first) && byte_is(source, at + 1, second)
}

// Whether two texts are the same bytes in the same order.
// Not `a == b`: tried, and keys::has_key, where it is made in line, then took 4,813 instructions a byte for integer keys made to collide, not 2,326.
pub fn same_bytes(a: &[u8], b: &[u8]) -> bool
    ensures { result ≡ same_bytes a.now b.now }
{
    if a.len() != b.len() {
        return false;
    }
    for i in 0..a.len() {
        if a[i] != b[i] {
            return false;
        }
    }
    true
}
