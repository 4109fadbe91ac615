// The tokens of a source, each changed in the same way: stretches of them that stay are copied whole, and of the others all but the numbers with them. One loop
// for both services: what stays is found in one place (stretch.rt), what changes written in another (`respell`). It keeps that what is written and what is left
// are together the text.
ghost use Rattle.std.specs.Prelude.{◌≤◌};
ghost use Rattle.rewriting.specs.Output.{Appends};
ghost use Rattle.rewriting.specs.Shortest.{Bounds, Respells};
ghost use Rattle.rewriting.specs.Rewriting.{ChangeFits, Named, respelled_text, rewritten_text};
ghost use Rattle.rewriting.specs.Stretches.{Changes};

use crate::output::Output;
use crate::shortest::shortest;
use crate::splice::Renumbering;
use crate::stretch::{Stop, next_node, stretch};
use scanner::Text;
use tables::tag_at;

// What becomes of a token: it is written in canonical spelling; or a reference that moves names another ordinal, in shortest form, and all else is copied.
// Not an Option: canonical spelling is a change too.
#[derive(Clone, Copy)]
pub enum Change {
    Canonical,
    Renumber(Renumbering),
}

// Writes the numbers of the token at an index, whose text is known, as the change has them; the index from which its bytes stay.
// Source, index and text stay parameters, here and where they go on to: each is used alone, and a struct of them would only make `source[at]` longer.
fn respell(
    source: &[u8],
    at: usize,
    text: Text,
    tag: u64,
    change: Change,
    out: &mut Output,
) -> usize
    requires { ChangeFits change × Bounds source.now at text × Named source.now at text × Changes change source.now at text }
    ensures { Respells (respelled_text change tag source.now at text) source.now at text.next out.old result out.new }
{
    match change {
        Change::Canonical => shortest(source, at, text, out),
        Change::Renumber(renumbering) => {
            out.number(text.content - renumbering.down + renumbering.up);
            text.next - 1
        }
    }
}

// Writes the tokens from one index up to another, or to the first that is none, as far as there is room: what stays is copied up to the number that changes
// next. Each token but a closing brace is the next node, from node 0 on.
pub(crate) fn rewrite(
    source: &[u8],
    table: &[u64],
    from: usize,
    to: usize,
    change: Change,
    out: &mut Output,
)
    requires { ChangeFits change }
    ensures { Appends (rewritten_text change table.now 0 source.now from to) out.old out.new }
{
    let mut behind = from.min(source.len());
    let mut kept = behind;
    let mut next = 0;
    loop {
        match stretch(source, table, behind, to, next, change) {
            Stop::End(at) => return out.append(&source[kept..at]),
            Stop::Token { at, text, node } => {
                out.append(&source[kept..at + 2]);
                kept = respell(source, at, text, tag_at(table, node), change, out);
                behind = text.next;
                next = next_node(source, at, node);
            }
        }
    }
}
