// The source with an array's head counted anew, bytes left out and texts put in: what inserting and removing write.
ghost use Rattle.std.specs.Prelude.{◌≡◌, true, length};
ghost use Rattle.rewriting.specs.Output.{Appends};
ghost use Rattle.rewriting.specs.Rewriting.{is_renumbered};
ghost use Rattle.rewriting.specs.Edited.{stands, spliced_text};

use crate::output::Output;
use crate::rewrite::{Change, rewrite};
use format::limits::NUMBER_LIMIT;

// How references move: one that names an ordinal from this one on names it less `down` and plus `up`, in shortest form, if that is another.
#[derive(Clone, Copy)]
pub struct Renumbering {
    pub from: u64,
    pub down: u64,
    pub up: u64,
}

impl Renumbering {
    // Whether a reference to this ordinal comes to name another.
    #[tactic(auto, unfolding(crate::specs::Rewriting::is_renumbered))]
    pub(crate) fn moves(self, named: u64) -> bool
        ensures { result ≡ is_renumbered self named }
    {
        self.down != self.up && self.from <= named
    }
}

// Where the source changes: the indices of the array's tag and of its first pair, and those from which and up to which bytes are left out for the texts that
// go in (one index where none is); the array's new count of pairs, and how references move.
#[derive(Clone, Copy)]
pub struct Splice {
    pub at: usize,
    pub inside: usize,
    pub from: usize,
    pub to: usize,
    pub count: u64,
    pub renumbering: Renumbering,
}

// Whether a source of this length has bytes for an array's head there, and the numbers are such that none overflows.
pub(crate) fn can_splice(size: usize, splice: Splice) -> bool
    ensures { result ≡ stands size splice }
{
    2 <= splice.inside
        && splice.at <= splice.inside - 2
        && splice.inside <= size
        && splice.count <= NUMBER_LIMIT
        && splice.renumbering.up <= NUMBER_LIMIT
        && splice.renumbering.down <= splice.renumbering.from
}

// Writes the spliced source, as far as there is room. Renumbering asks for no node, so none is counted.
pub(crate) fn write_spliced(
    source: &[u8],
    table: &[u64],
    splice: Splice,
    key: &[u8],
    value: &[u8],
    out: &mut Output,
)
    requires { stands (length source.now) splice ≡ true }
    ensures { Appends (spliced_text source.now key.now value.now splice) out.old out.new }
{
    let renumber = Change::Renumber(splice.renumbering);
    rewrite(source, table, 0, splice.at, renumber, out);
    out.append(&source[splice.at..splice.at + 2]);
    out.number(splice.count);
    out.append(&source[splice.inside - 2..splice.inside]);
    rewrite(source, table, splice.inside, splice.from, renumber, out);
    out.append(key);
    out.append(value);
    rewrite(source, table, splice.to, source.len(), renumber, out);
}
