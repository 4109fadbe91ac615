// Texts of scalars where most time goes: those that keys (an i without a sign, an s) and values (an N, an i without a sign, a plain d) mostly have stay in the
// loop over the pairs, as do the digits in them: by hints, N and s by their size. All others go by calls, `int` and `scalar`. Both functions promise what
// `scalar` does.
ghost use Rattle.std.specs.Prelude.{◌≡◌};
ghost use Rattle.scanner.specs.Scans.{Answers, scalar_behind, scalar_told};
ghost use Rattle.scanner.specs.Parts.{Sure};

use crate::flag::null;
use crate::float::plain_end;
use crate::number::{POSITIVE_LIMIT, int, magnitude};
use crate::quoted::quoted;
use crate::scalar::{STRING_END, scalar};
use crate::{Text, expect};
use bytes_at::byte_is;
use format::codes::Code;
use format::kind::Kind;

// The text of an i. One with a sign goes by a call, so that what is found in line is the answer, refused or not, and no digit is looked at twice.
// Not `int`: tried, and reading a list of integer keys then took 24 % more instructions.
#[inline(always)]
fn integer(source: &[u8], at: usize) -> Result<Text, Code>
    ensures { Answers (scalar_behind 105) (scalar_told at) source.now at result }
{
    expect(source, at, b':')?;
    let from = at + 1;
    if byte_is(source, from, b'+') || byte_is(source, from, b'-') {
        return Ok(int(source, at)?);
    }
    magnitude(source, from, false, POSITIVE_LIMIT)
}

// The text of a d of digits with at most one point; what is refused may be a d all the same.
#[inline(always)]
fn plain(source: &[u8], at: usize) -> Result<Text, Code>
    ensures { Sure (scalar_behind 100) (scalar_told at) source.now at result }
{
    expect(source, at, b':')?;
    let from = at + 1;
    let Some(end) = plain_end(source, from) else {
        return Err(Code::TextUnfit);
    };
    Ok(Text {
        content: from as u64,
        size: (end - from) as u64,
        link: 0,
        next: end + 1,
    })
}

// A text that was found in line; else what `scalar` says. What a call answers lies in memory: taken apart, it does not keep the answers made in line there too.
#[inline(always)]
fn or_scalar(scan: Result<Text, Code>, source: &[u8], at: usize, tag: u8) -> Result<Text, Code>
    requires { Sure (scalar_behind tag) (scalar_told at) source.now at scan }
    ensures { Answers (scalar_behind tag) (scalar_told at) source.now at result }
{
    match scan {
        Ok(text) => Ok(text),
        Err(_) => Ok(scalar(source, at, tag)?),
    }
}

// The text of a scalar with this tag, for keys: an i without a sign and an s in line.
// Not one function for keys and values: tried, and reading a list of integer keys then took 12 % more instructions.
#[inline(always)]
pub fn key(source: &[u8], at: usize, tag: u8) -> Result<Text, Code>
    ensures { Answers (scalar_behind tag) (scalar_told at) source.now at result }
{
    match tag {
        Kind::INT => integer(source, at),
        Kind::STRING => quoted(source, at, STRING_END),
        _ => Ok(scalar(source, at, tag)?),
    }
}

// The text of a scalar with this tag, for values: an N, an i without a sign and a plain d in line.
#[inline(always)]
pub fn value(source: &[u8], at: usize, tag: u8) -> Result<Text, Code>
    ensures { Answers (scalar_behind tag) (scalar_told at) source.now at result }
{
    match tag {
        Kind::NULL => null(source, at),
        Kind::INT => integer(source, at),
        Kind::FLOAT => or_scalar(plain(source, at), source, at, tag),
        _ => Ok(scalar(source, at, tag)?),
    }
}
