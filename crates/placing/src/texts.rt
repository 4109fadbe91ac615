// The texts of the new pair: "The key text is exactly one i or s, the value text exactly one plain value (N, b, i, d or s), nothing after it".
ghost use Rattle.std.specs.Prelude.{◌≡◌};
ghost use Rattle.placing.specs.PairTexts.{Exact, ExactKey, texts_answer, pair_words};

use format::kind::Kind;
use keys::KeyWords;
use scanner::Text;
use scanner::scalar::scalar;

// What a text tells that is exactly one scalar.
fn exact(text: &[u8]) -> Option<Text>
    ensures { Exact text.now result }
{
    let tag = *text.first()?;
    let told = scalar(text, 1, tag).ok()?;
    if told.next < text.len() {
        return None;
    }
    Some(told)
}

// What a text tells that is exactly one key of an array.
fn exact_key(text: &[u8]) -> Option<Text>
    ensures { ExactKey text.now result }
{
    let kind = Kind {
        tag: *text.first()?,
    };
    if !kind.may_be_key() {
        return None;
    }
    exact(text)
}

// The key's words, if both texts are what they should be; none is 13, "key or value text unfit".
pub(crate) fn pair_texts(key: &[u8], value: &[u8]) -> Option<KeyWords>
    ensures { texts_answer result ≡ pair_words key.now value.now }
{
    let told = exact_key(key)?;
    exact(value)?;
    Some(KeyWords {
        tag: key[0] as u64,
        content: told.content,
        size: told.size,
    })
}
