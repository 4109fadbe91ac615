// Decimal numerals and two's complement: what floats, scanner and rewriting read and write numbers by.
// `run_at` takes bytes and any index, and gives where the run of digits there ends and its value, held at a cap. So one function serves *numbers* (cap 65,537)
// and 64-bit integers, however many leading zeros stand there. Whether a value is too great the caller says: nothing is refused here.
// `write_decimal` stores the shortest digits and gives their count, which cannot overflow. It loses the stores that fall outside, and so does `put`, by which
// it stores.
// A `Signed` converts to its word and back (`From`). The laws of proofs/ hold for every width.
#![tactic(auto)]

ghost use Rattle.std.specs.Prelude.{◌≡◌, ◌+◌, ◌-◌, ◌*◌, ◌≤◌, min, slice_set};
ghost use Rattle.decimal.specs.Complement.{pattern};
ghost use Rattle.decimal.specs.Promise.{RunAt, Stored, SignedOf};

// A run of digits: the index after it, and its value, held at a cap.
#[derive(Clone, Copy, Debug, PartialEq, Eq)]
pub struct Run {
    pub next: usize,
    pub value: u64,
}

// An integer by its sign and magnitude. No Option: both always mean something.
#[derive(Clone, Copy, Debug, PartialEq, Eq)]
pub struct Signed {
    pub negative: bool,
    pub magnitude: u64,
}

// The value of a run with one digit more, held at the cap.
fn push_digit(value: u64, digit: u8, cap: u64) -> u64
    requires { (value ≤ cap) × (48 ≤ digit) × (digit ≤ 57) }
    ensures { result ≡ min cap (value * 10 + (digit - 48)) }
{
    let d = u64::from(digit - b'0');
    // Nearly every run stays below: one test a digit for it.
    if value < cap / 10 {
        return value * 10 + d;
    }
    if cap / 10 < value || cap - value * 10 < d {
        return cap;
    }
    value * 10 + d
}

// The whole run of digits from an index on. The cap keeps the value in its width however long the run is.
// Not a `for` over `at..source.len()`: tried, and `ton_read` of string keys, rising, then took 16.5 instructions a byte, not 15.5.
#[inline(always)]
pub fn run_at(source: &[u8], at: usize, cap: u64) -> Run
    ensures { RunAt source.now at cap result }
{
    let mut next = at;
    let mut value = 0;
    while let Some(digit @ b'0'..=b'9') = source.get(next) {
        value = push_digit(value, *digit, cap);
        next += 1;
    }
    Run { next, value }
}

// One byte stored at base + offset, where that is inside.
pub fn put(out: &mut [u8], base: usize, offset: usize, b: u8)
    ensures { out.new ≡ slice_set out.old (base + offset) b }
{
    if base < out.len() && offset < out.len() - base {
        out[base + offset] = b;
    }
}

// The shortest digits of n from an index on, high digits first; their count. Stores past the end are lost.
pub fn write_decimal(out: &mut [u8], at: usize, n: u64) -> usize
    ensures { Stored out.old at n result out.new }
{
    if n < 10 {
        put(out, at, 0, (48 + n) as u8);
        return 1;
    }
    let high = write_decimal(out, at, n / 10);
    put(out, at, high, (48 + n % 10) as u8);
    high + 1
}

// An integer's two's complement pattern: of a negative one, zero minus the magnitude.
impl From<Signed> for u64 {
    ghost from_gives = { λ signed word. word ≡ pattern 64 signed.negative signed.magnitude };

    fn from(signed: Signed) -> u64 {
        if signed.negative {
            return 0u64.wrapping_sub(signed.magnitude);
        }
        signed.magnitude
    }
}

// The integer of a pattern, read back the same way.
impl From<u64> for Signed {
    ghost from_gives = { SignedOf 64 };

    fn from(word: u64) -> Signed {
        if word < 9223372036854775808 {
            return Signed {
                negative: false,
                magnitude: word,
            };
        }
        Signed {
            negative: true,
            magnitude: 0u64.wrapping_sub(word),
        }
    }
}
