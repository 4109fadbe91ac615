// Texts of digits: integers, counts of pairs, ordinals that a reference names. The index is the one behind the tag.
ghost use Rattle.std.specs.Prelude.{◌-◌, ◌<◌, ◌^◌};
ghost use Rattle.format.specs.Read.{number, int_text, count_text, named_text};
ghost use Rattle.scanner.specs.Scans.{Scans, Answers, value_told, literal_told, count_told};
ghost use Rattle.scanner.specs.Parts.{digits_text, signed_text, signed_told, FrontIs};

use crate::{Text, expect};
use bytes_at::{byte_is, bytes_are};
use decimal::Signed;
use format::codes::Code;
use format::limits::NUMBER_LIMIT;

// The greatest magnitudes of an integer: with no sign or a `+`, and with a `-`.
pub(crate) const POSITIVE_LIMIT: u64 = 9223372036854775807;

const NEGATIVE_LIMIT: u64 = 9223372036854775808;

// A run of digits of at most `top`: it "is taken whole, then 5 is tested".
#[inline(always)]
fn digits(source: &[u8], at: usize, top: u64) -> Result<Text, Code>
    requires { top < 2 ^ 64 - 1 }
    ensures { Scans (digits_text top) value_told source.now at result }
{
    let run = decimal::run_at(source, at, top + 1);
    let next = run.next;
    let value = run.value;
    if next == at {
        return Err(Code::TextUnfit);
    }
    if top < value {
        return Err(Code::OutOfRange);
    }
    Ok(Text {
        content: value,
        size: 0,
        link: 0,
        next,
    })
}

// The digits of an integer behind its sign, and the semicolon.
#[inline(always)]
pub(crate) fn magnitude(source: &[u8], at: usize, negative: bool, top: u64) -> Result<Text, Code>
    requires { top < 2 ^ 64 - 1 }
    ensures { Scans (signed_text top) (signed_told negative) source.now at result }
{
    let run = digits(source, at, top)?;
    let next = run.next;
    expect(source, next, b';')?;
    Ok(Text {
        content: u64::from(Signed {
            negative,
            magnitude: run.content,
        }),
        size: 0,
        link: 0,
        next: next + 1,
    })
}

// An integer's sign at an index: the index behind it, whether it is a minus, and the greatest magnitude that it allows.
// No Option: without a sign all three mean something too.
#[derive(Clone, Copy)]
pub struct Front {
    pub from: usize,
    pub negative: bool,
    pub top: u64,
}

// The sign that stands at an index, or none.
fn sign_at(source: &[u8], at: usize) -> Front
    ensures { FrontIs source.now at result }
{
    if byte_is(source, at, b'+') {
        return Front {
            from: at + 1,
            negative: false,
            top: POSITIVE_LIMIT,
        };
    }
    if byte_is(source, at, b'-') {
        return Front {
            from: at + 1,
            negative: true,
            top: NEGATIVE_LIMIT,
        };
    }
    Front {
        from: at,
        negative: false,
        top: POSITIVE_LIMIT,
    }
}

// An integer. A call, as `scalar` is: in line, LLVM keeps what the loop over the pairs needs in memory while it goes over a key's digits.
#[inline(never)]
pub(crate) fn int(source: &[u8], at: usize) -> Result<Text, Code>
    ensures { Answers int_text literal_told source.now at result }
{
    expect(source, at, b':')?;
    let front = sign_at(source, at + 1);
    magnitude(source, front.from, front.negative, front.top)
}

// A *number* of the grammar, which "may have one leading `+`". The plus is looked for only where no digit stands: hardly a number has one, and its digits
// are scanned in one place: they are in line, and the loop has them once.
pub(crate) fn number(source: &[u8], at: usize) -> Result<Text, Code>
    ensures { Scans number value_told source.now at result }
{
    let mut from = at;
    loop {
        let scan = digits(source, from, NUMBER_LIMIT);
        if scan.is_ok() || from != at || !byte_is(source, at, b'+') {
            return scan;
        }
        from = at + 1;
    }
}

// A count of pairs and the opening brace, from behind the colon on.
pub(crate) fn count(source: &[u8], at: usize) -> Result<Text, Code>
    ensures { Answers count_text count_told source.now at result }
{
    let run = number(source, at)?;
    let next = run.next;
    if !bytes_are(source, next, b':', b'{') {
        return Err(Code::TextUnfit);
    }
    Ok(Text {
        content: 0,
        size: 0,
        link: run.content,
        next: next + 2,
    })
}

// The ordinal that a reference names.
pub fn named(source: &[u8], at: usize) -> Result<Text, Code>
    ensures { Answers named_text value_told source.now at result }
{
    expect(source, at, b':')?;
    let run = number(source, at + 1)?;
    let next = run.next;
    expect(source, next, b';')?;
    Ok(Text {
        content: run.content,
        size: 0,
        link: 0,
        next: next + 1,
    })
}
