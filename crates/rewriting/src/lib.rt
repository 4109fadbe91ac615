// What an edit writes: the canonical text of a source, or the source spliced. Takes any bytes, and writes as much as the output has room for; gives the length
// of the whole. Texts longer than a plan, and a splice whose head is not in the source, are not edited at all (`None`): so no index overflows.
// Nothing else is refused. The editor calls `write`, first into an empty output where the text has to be measured.
// The text is defined on any bytes (specs/Edited, `edited_text`), and the code equals it. That it is the right text for a plan that was read is a lemma: tokens
// that fill the bytes are those between (`between_stretch`, crates/tokens).
// The table is that of the plan which was read: what becomes of a token may ask for its node's tag. A table of other words gives what the definition says.
// Goes by tokens, scanned again, since no tag's offset stands in the table: those that stay are passed and copied as one stretch, of the others the numbers are
// written again.
#![tactic(auto)]

ghost use Rattle.std.specs.Prelude.{◌≡◌, true, length};
ghost use Rattle.rewriting.specs.Edited.{edit_stands, edited_text, writable, Edits};
ghost use Rattle.rewriting.specs.Output.{Appends};

use crate::output::Output;
use crate::rewrite::{Change, rewrite};
use crate::splice::{Splice, can_splice, write_spliced};
use format::limits::SOURCE_LIMIT;

mod output;
mod plain;
mod rewrite;
mod shortest;
pub mod splice;
mod stretch;

// Not an Option: canonical spelling is an edit too.
#[derive(Clone, Copy)]
pub enum Edit {
    Canonical,
    Splice(Splice),
}

// Whether texts of these lengths are edited at all: then no index overflows, and what is copied is there.
fn can_write(size: usize, edit: Edit, key: usize, value: usize) -> bool
    ensures { result ≡ writable size edit key value }
{
    let stands = match edit {
        Edit::Canonical => true,
        Edit::Splice(splice) => can_splice(size, splice),
    };
    size <= SOURCE_LIMIT && key <= SOURCE_LIMIT && value <= SOURCE_LIMIT && stands
}

// Writes the edited source, as far as there is room.
// Source and table stay two parameters, as `write` has them: below, the source is asked everywhere and the table by `tag_at` alone.
fn write_edited(
    source: &[u8],
    table: &[u64],
    edit: Edit,
    key: &[u8],
    value: &[u8],
    out: &mut Output,
)
    requires { edit_stands (length source.now) edit ≡ true }
    ensures { Appends (edited_text source.now table.now edit key.now value.now) out.old out.new }
{
    match edit {
        Edit::Canonical => rewrite(source, table, 0, source.len(), Change::Canonical, out),
        Edit::Splice(splice) => write_spliced(source, table, splice, key, value, out),
    }
}

// Writes the edited source, as far as there is room; into an empty output it is measured. The length of the whole; or none where it is not edited at all, which
// is 14 (`edited_answer`, specs/Edited).
pub fn write(
    source: &[u8],
    table: &[u64],
    edit: Edit,
    key: &[u8],
    value: &[u8],
    out: &mut [u8],
) -> Option<usize>
    ensures { Edits source.now table.now edit key.now value.now out.old out.new result }
{
    if !can_write(source.len(), edit, key.len(), value.len()) {
        return None;
    }
    let mut output = Output {
        bytes: out,
        length: 0,
    };
    write_edited(source, table, edit, key, value, &mut output);
    Some(output.length)
}
