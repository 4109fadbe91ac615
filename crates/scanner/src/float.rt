// Float texts. The index is the one behind the tag.
ghost use Rattle.std.specs.Prelude.{◌≡◌, MatchOption, MatchResult, IfSome, drop};
ghost use Rattle.format.specs.Bytes.{byte};
ghost use Rattle.format.specs.Limits.{sign_of, fraction_of};
ghost use Rattle.format.specs.Read.{until, float_text};
ghost use Rattle.scanner.specs.Scans.{Answers, float_told, plain_float_end};
ghost use Rattle.scanner.specs.Parts.{Passed, SemicolonAt, NoSemicolon, ExponentEnd, PlainEnd};

use crate::{Text, expect};
use bytes_at::byte_is;
use floats::is_float;
use format::codes::Code;

// The index of the next semicolon, if one stands there.
fn semicolon_at(source: &[u8], at: usize) -> Option<usize>
    ensures { MatchOption result (NoSemicolon source.now at) (SemicolonAt source.now at) }
{
    for i in at..source.len() {
        if source[i] == b';' {
            return Some(i);
        }
    }
    None
}

// The index behind an optional sign.
fn behind_sign(source: &[u8], at: usize) -> usize
    ensures rest { (sign_of (until (byte ";") (drop at source.now))).1 ≡ until (byte ";") (drop result source.now) }
    ensures passed { Passed source.now at result }
{
    if byte_is(source, at, b'+') {
        return at + 1;
    }
    if byte_is(source, at, b'-') {
        return at + 1;
    }
    at
}

// The index behind a point and its digits, if they stand there.
fn behind_fraction(source: &[u8], at: usize) -> usize
    ensures rest { (fraction_of (until (byte ";") (drop at source.now))).1 ≡ until (byte ";") (drop result source.now) }
    ensures passed { Passed source.now at result }
{
    if byte_is(source, at, b'.') {
        return decimal::run_at(source, at + 1, 0).next;
    }
    at
}

// Where nothing or an exponent ends at a semicolon, if such stand there.
fn exponent_end(source: &[u8], at: usize) -> Option<usize>
    ensures { IfSome result (ExponentEnd source.now at) }
{
    if byte_is(source, at, b';') {
        return Some(at);
    }
    if !byte_is(source, at, b'e') && !byte_is(source, at, b'E') {
        return None;
    }
    let digits = behind_sign(source, at + 1);
    let end = decimal::run_at(source, digits, 0).next;
    if end == digits || !byte_is(source, end, b';') {
        return None;
    }
    Some(end)
}

// Where a float text that begins with a sign or a digit ends at a semicolon; else an index before which none stands: it may be a float all the same.
fn decimal_end(source: &[u8], from: usize) -> Result<usize, usize>
    ensures { MatchResult result (PlainEnd source.now from) (Passed source.now from) }
{
    let digits = behind_sign(source, from);
    let whole = decimal::run_at(source, digits, 0).next;
    if whole == digits {
        return Err(from);
    }
    let fraction = behind_fraction(source, whole);
    let Some(end) = exponent_end(source, fraction) else {
        return Err(fraction);
    };
    Ok(end)
}

// A float text, up to its semicolon.
pub(crate) fn float(source: &[u8], at: usize) -> Result<Text, Code>
    ensures { Answers float_text (float_told at) source.now at result }
{
    expect(source, at, b':')?;
    let from = at + 1;
    let end = match decimal_end(source, from) {
        Ok(end) => end,
        Err(stop) => {
            let Some(end) = semicolon_at(source, stop) else {
                return Err(Code::TextUnfit);
            };
            if !is_float(&source[from..end]) {
                return Err(Code::TextUnfit);
            }
            end
        }
    };
    Ok(Text {
        content: from as u64,
        size: (end - from) as u64,
        link: 0,
        next: end + 1,
    })
}

// Where digits with at most one point end at a semicolon, if such stand there.
#[inline(always)]
pub fn plain_end(source: &[u8], from: usize) -> Option<usize>
    ensures end { result ≡ plain_float_end source.now from }
    ensures float { IfSome result (PlainEnd source.now from) }
{
    let whole = decimal::run_at(source, from, 0);
    let point = whole.next;
    if point == from {
        return None;
    }
    if byte_is(source, point, b';') {
        return Some(point);
    }
    if !byte_is(source, point, b'.') {
        return None;
    }
    let fraction = decimal::run_at(source, point + 1, 0);
    let end = fraction.next;
    if byte_is(source, end, b';') {
        return Some(end);
    }
    None
}
