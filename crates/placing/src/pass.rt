// Nodes passed in the bytes of a plan that was read, since no tag's position stands in the table: token by token, so many nodes, and then the closing braces
// of what was opened on the way. That also counts the containers around the array.
ghost use Rattle.std.specs.Prelude.{◌≡◌, ◌≤◌};
ghost use Rattle.bytes_at.specs.ByteAt.{byte_at};
ghost use Rattle.tokens.specs.Tokens.{opens_of, closes_of};
ghost use Rattle.placing.specs.Passing.{goes_on, Ahead, Reached};

use bytes_at::byte_is;
use format::kind::Kind;
use tokens::token;

// The index reached, and how many of the containers that were opened on the way are still open around it.
#[derive(Clone, Copy)]
pub struct Passed {
    pub at: usize,
    pub around: usize,
}

// How many containers a token with this first byte opens.
fn opens(first: u8) -> usize
    ensures { (result ≡ opens_of first) × (result ≤ 1) }
{
    usize::from(matches!(first, Kind::ARRAY | Kind::OBJECT))
}

// How many it closes.
fn closes(first: u8) -> usize
    ensures { (result ≡ closes_of first) × (result ≤ 1) }
{
    usize::from(first == b'}')
}

// Whether a node is left to pass, or the closing brace of a container that was opened on the way.
fn goes_on(source: &[u8], at: usize, left: usize, opened: usize, closed: usize) -> bool
    ensures { result ≡ goes_on (byte_at source.now at) left opened closed }
{
    0 < left || (closed < opened && byte_is(source, at, b'}'))
}

// Passes so many nodes from an index on, and the closing braces behind them of containers that they opened.
pub(crate) fn pass(source: &[u8], from: usize, nodes: usize) -> Passed
    requires { Ahead source.now from nodes }
    ensures { (a : Ahead source.now from nodes) → Reached source.now a.rest a.around result }
{
    let mut at = from;
    let mut passed = 0;
    let mut opened = 0;
    let mut closed = 0;
    // No `for`: where a token ends is known once it is scanned.
    while goes_on(source, at, nodes - passed, opened, closed) {
        let Ok(text) = token(source, at) else {
            // No token of a plan that was read is unfit.
            return Passed { at, around: 0 };
        };
        let first = source[at];
        let shut = closes(first);
        passed += 1 - shut;
        opened += opens(first);
        closed += shut;
        at = text.next;
    }
    Passed {
        at,
        around: opened - closed,
    }
}
