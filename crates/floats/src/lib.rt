// Whether bytes are a float text, `INF`, `-12.5e3` and the like: takes the whole text and gives yes or no, as the grammar's `is_float` does.
// Nothing is refused here: the scanner, which calls it with what stands before the first `;`, makes a no its refusal 2. (No float text holds a `;`.)
// It lies below the scanner, so that an edit of it proves its own layer.
#![tactic(auto)]

ghost use Rattle.std.specs.Prelude.{◌≡◌, length};
ghost use Rattle.decimal.specs.Digits.{digits_of, after_digits};
ghost use Rattle.format.specs.Limits.{sign_of, is_float, is_decimal, is_exponent};

use bytes_at::same_bytes;

// What stands behind an optional sign.
fn behind_sign(text: &[u8]) -> &[u8]
    ensures { result.now ≡ (sign_of text.now).1 }
{
    match text {
        [b'+' | b'-', rest @ ..] => rest,
        _ => text,
    }
}

// How many digits stand in front, and what stands behind them.
fn split_digits(text: &[u8]) -> (usize, &[u8])
    ensures count { result.0 ≡ length (digits_of text.now) }
    ensures rest { result.1.now ≡ after_digits text.now }
{
    let count = decimal::run_at(text, 0, 0).next;
    (count, &text[count..])
}

// Whether this is nothing, or an exponent.
fn is_exponent(text: &[u8]) -> bool
    ensures { result ≡ is_exponent text.now }
{
    let [b'e' | b'E', exponent @ ..] = text else {
        return text.is_empty();
    };
    let (count, rest) = split_digits(behind_sign(exponent));
    0 < count && rest.is_empty()
}

// Whether this is digits with at most one point, and then nothing or an exponent.
fn is_decimal(text: &[u8]) -> bool
    ensures { result ≡ is_decimal text.now }
{
    let (whole, rest) = split_digits(text);
    let (fraction, rest) = match rest {
        [b'.', digits @ ..] => split_digits(digits),
        _ => (0, rest),
    };
    (0 < whole || 0 < fraction) && is_exponent(rest)
}

// Whether the part is a float text.
#[tactic(auto, unfolding(format::specs::Limits::is_float))]
pub fn is_float(part: &[u8]) -> bool
    ensures { result ≡ is_float part.now }
{
    same_bytes(part, b"INF")
        || same_bytes(part, b"-INF")
        || same_bytes(part, b"NAN")
        || is_decimal(behind_sign(part))
}
