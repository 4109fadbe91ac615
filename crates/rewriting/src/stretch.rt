// Tokens that stay as they are, passed as one stretch: they are copied whole. Whether one stays is told by its tag and its first two digits, since a number
// with a leading zero begins with one; plain tokens are passed without their values.
ghost use Rattle.std.specs.Prelude.{◌≡◌, ◌≤◌, ◌<◌, length};
ghost use Rattle.scanner.specs.Scans.{Found};
ghost use Rattle.tokens.specs.Tokens.{read_token, token_told};
ghost use Rattle.rewriting.specs.Stretches.{Stays, Stops, node_next};

use crate::plain::behind_plain;
use crate::rewrite::Change;
use crate::shortest::is_shortest;
use format::kind::Kind;
use scanner::Text;
use tables::tag_at;
use tokens::token;

// Whether the token at an index, whose text is known, stays as it is. An object's head has two numbers: it is written again, whatever they are.
fn stays(source: &[u8], at: usize, text: Text, tag: u64, change: Change) -> bool
    requires { Found read_token (token_told at) source.now at text }
    ensures { Stays change tag source.now at text result }
{
    let letter = source[at];
    match change {
        Change::Canonical => match letter {
            Kind::NULL | Kind::BOOL | Kind::FLOAT | b'}' => true,
            Kind::OBJECT => false,
            _ => is_shortest(source[at + 2], source[at + 3]),
        },
        Change::Renumber(renumbering) => match letter {
            Kind::OBJECT_REFERENCE | Kind::VARIABLE_REFERENCE => !renumbering.moves(text.content),
            _ => true,
        },
    }
}

// What ends a stretch: a token that changes, with its text and its node; or that no token is left to write. No Option: each case has the index where it ends.
#[derive(Clone, Copy)]
pub enum Stop {
    Token { at: usize, text: Text, node: usize },
    End(usize),
}

// The next node behind the token at an index: a closing brace is none.
pub(crate) fn next_node(source: &[u8], at: usize, node: usize) -> usize
    requires { (at < length source.now) × (node ≤ at) }
    ensures { result ≡ node_next source.now at node }
{
    if source[at] == b'}' {
        return node;
    }
    node + 1
}

// The stretch from one index up to another, the first token's node being given.
pub(crate) fn stretch(
    source: &[u8],
    table: &[u64],
    from: usize,
    to: usize,
    first: usize,
    change: Change,
) -> Stop
    requires { (from ≤ length source.now) × (first ≤ from) }
    ensures { Stops change table.now source.now first from to result }
{
    let mut at = from;
    let mut node = first;
    // No `for`: how far a step goes is known once the token there was scanned.
    while at < to {
        if let Some(behind) = behind_plain(source, at) {
            at = behind;
            node += 1;
            continue;
        }
        let Ok(text) = token(source, at) else {
            return Stop::End(at);
        };
        if !stays(source, at, text, tag_at(table, node), change) {
            return Stop::Token { at, text, node };
        }
        node = next_node(source, at, node);
        at = text.next;
    }
    Stop::End(at)
}
