// Tokens: a key's or a value's own text, from its tag on; of a container its head; and the closing brace. What a plan that was read is made of, one behind
// another. Takes a source and any index, and gives what the token there tells and where it ends; or refuses it as the scanner does, with 2, 3 or 5.
// Rewriting and placing call it. specs/Between has the tokens of any bytes, up to the first that is none (`tokens_between`).
#![tactic(auto)]

ghost use Rattle.scanner.specs.Scans.{Answers};
ghost use Rattle.tokens.specs.Tokens.{read_token, token_told};

use format::codes::Code;
use format::kind::Kind;
use scanner::Text;
use scanner::head::{array, object};
use scanner::number::named;
use scanner::scalar::scalar;

// The token at an index.
pub fn token(source: &[u8], at: usize) -> Result<Text, Code>
    ensures { Answers read_token (token_told at) source.now at result }
{
    if source.len() <= at {
        return Err(Code::TextUnfit);
    }
    let tag = source[at];
    match tag {
        b'}' => {
            return Ok(Text {
                content: 0,
                size: 0,
                link: 0,
                next: at + 1,
            });
        }
        Kind::ARRAY => return array(source, at + 1),
        Kind::OBJECT => return object(source, at + 1),
        Kind::OBJECT_REFERENCE | Kind::VARIABLE_REFERENCE => return named(source, at + 1),
        _ => return scalar(source, at + 1, tag),
    }
}
