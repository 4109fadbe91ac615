// Plain tokens, which stay as they are whatever the change: they are passed without their values.
ghost use Rattle.std.specs.Prelude.{IfSome};
ghost use Rattle.format.specs.Bytes.{byte};
ghost use Rattle.rewriting.specs.Stretches.{TagAt, Passes};

use crate::shortest::is_shortest;
use bytes_at::byte_is;
use format::kind::Kind;
use scanner::float::plain_end;

// So many digits are an integer, whatever they say.
const SAFE_DIGITS: usize = 18;

// The index behind the semicolon of an N, if one stands there.
fn behind_null(source: &[u8], at: usize) -> Option<usize>
    requires { TagAt source.now at (byte "N") }
    ensures { IfSome result (Passes source.now at) }
{
    byte_is(source, at + 1, b';').then_some(at + 2)
}

// The index behind an integer without a sign, of few digits and in shortest form, if one stands there.
fn behind_int(source: &[u8], at: usize) -> Option<usize>
    requires { TagAt source.now at (byte "i") }
    ensures { IfSome result (Passes source.now at) }
{
    if !byte_is(source, at + 1, b':') {
        return None;
    }
    let end = decimal::run_at(source, at + 2, 0).next;
    let digits = end - (at + 2);
    if digits == 0 || SAFE_DIGITS < digits || !byte_is(source, end, b';') {
        return None;
    }
    is_shortest(source[at + 2], source[at + 3]).then_some(end + 1)
}

// The index behind a float of digits with at most one point, if one stands there.
fn behind_float(source: &[u8], at: usize) -> Option<usize>
    requires { TagAt source.now at (byte "d") }
    ensures { IfSome result (Passes source.now at) }
{
    if !byte_is(source, at + 1, b':') {
        return None;
    }
    let end = plain_end(source, at + 2)?;
    Some(end + 1)
}

// The index behind a plain token, if one stands there.
pub(crate) fn behind_plain(source: &[u8], at: usize) -> Option<usize>
    ensures { IfSome result (Passes source.now at) }
{
    let tag = *source.get(at)?;
    match tag {
        Kind::NULL => behind_null(source, at),
        Kind::INT => behind_int(source, at),
        Kind::FLOAT => behind_float(source, at),
        _ => None,
    }
}
