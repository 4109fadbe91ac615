// The services that write plans. `canonicalize` writes the canonical text of the plan given, `insert` the plan with a pair put in; both take any bytes, table
// and output, and give the length written, the table being that of the plan written. Refused are what reading refuses, inserting's 11, 12, 13, 9, 8 and 7, and
// 14: then every word of the table is zero, and the output as it was. The C interface and the program cases call them.
// Both end in `write_plan`. Four crates make the services, so that an edit proves a quarter of the code again: tokens (what a plan is made of), rewriting (what
// an edit writes), placing (reading, and the steps before writing) and this one (14, writing, reading again). Each rests on the promises of those below alone.
#![tactic(auto)]

ghost use Rattle.std.specs.Prelude.{◌≡◌, true, length};
ghost use Rattle.format.specs.Reading.{terms_of};
ghost use Rattle.format.specs.Writing.{fits_in, canonical_bytes, insert_bytes};
ghost use Rattle.editor.specs.Promise.{Writes};
ghost use Rattle.editor.specs.Ends.{room_answer, room_of, Refuses, Settles, Short, Spared, EditFits, Roomed, Finishes};
ghost use Rattle.rewriting.specs.Edited.{edited_answer, Edits};

use format::codes::{Code, Refusal};
use format::limits::SOURCE_LIMIT;
use placing::locate;
use rewriting::{Edit, write};

// What is written of so short a source, key and value is never longer than a plan may be (`edited_most`, crates/rewriting): a reference has four bytes or more
// and grows by one at the most, and the parts of a splice are stretches of the source (`spot-leads`, crates/placing). So five quarters of the source, both
// texts and a head of nine bytes are at most 65,259.
const SHORT_SOURCE: usize = 49000;

const SHORT_TEXT: usize = 2000;

// Whether so many bytes may be written to an output of this length: "bytes to write exceed the output's length or 65,536" is refused.
fn has_room(room: usize, length: usize) -> bool
    ensures { result ≡ fits_in room length }
{
    length <= room && length <= SOURCE_LIMIT
}

// 14, at 0: every word of the table is zero.
#[tactic(auto, unfolding(crate::specs::Promise::writing_answer))]
fn refuse(table: &mut [u64]) -> Result<usize, Refusal>
    ensures { Refuses table.old table.new result }
{
    tables::clear(table);
    Err(Code::OutputTooShort.at(0))
}

// A plan is written: it is read into the table. That reading accepts it is a theorem, so its answer is not looked at.
#[tactic(auto, unfolding(crate::specs::Promise::writing_answer))]
fn settle(written: &[u8], table: &mut [u64]) -> Result<usize, Refusal>
    ensures { Settles written.now table.old table.new result }
{
    let _ = reader::read(written, table);
    Ok(written.len())
}

// Whether texts of these lengths need not be measured: the output has room for whatever is written.
fn is_short(room: usize, source: usize, key: usize, value: usize) -> bool
    ensures { result ≡ true → Short room source key value }
{
    SOURCE_LIMIT <= room && source <= SHORT_SOURCE && key <= SHORT_TEXT && value <= SHORT_TEXT
}

// Whether there is room for a text that was measured; what is not edited at all would be longer than any plan.
#[tactic(auto, unfolding(rewriting::specs::Edited::edited_answer))]
fn room_of(room: usize, measured: Option<usize>) -> bool
    ensures { room_answer result ≡ room_of room (edited_answer measured) }
{
    measured.is_some_and(|length| has_room(room, length))
}

// An edit of a plan that was read: its bytes and table, what is done, and the texts of a new pair. The table tells the nodes of the plan's tokens.
#[derive(Clone, Copy)]
struct Rewrite<'a> {
    source: &'a [u8],
    table: &'a [u64],
    edit: Edit,
    key: &'a [u8],
    value: &'a [u8],
    ghost fits: { ∥ EditFits source.now table.now edit key.now value.now ∥₁ },
}

impl<'a> Rewrite<'a> {
    // Whether it need not be measured: a canonical text is never longer than its source.
    fn is_spared(&self, room: usize) -> bool
        ensures { result ≡ true → Spared room self.now.edit (length self.now.source.now) (length self.now.key.now) (length self.now.value.now) }
    {
        match self.edit {
            Edit::Canonical => has_room(room, self.source.len()),
            Edit::Splice(_) => is_short(room, self.source.len(), self.key.len(), self.value.len()),
        }
    }

    // Whether there is room for the edited plan, measured: written where there is none for any of it, in the empty part of the output. So one loop measures and
    // writes, and a refusal has written nothing.
    fn measure(&self, out: &mut [u8]) -> bool
        ensures { Roomed self.now.source.now self.now.table.now self.now.edit self.now.key.now self.now.value.now
            out.old out.new result }
    {
        let room = out.len();
        let measured = self.write(&mut out[..0]);
        room_of(room, measured)
    }

    // Whether there is room for the edited plan: only a longer one is measured.
    fn has_room_in(&self, out: &mut [u8]) -> bool
        ensures { Roomed self.now.source.now self.now.table.now self.now.edit self.now.key.now self.now.value.now
            out.old out.new result }
    {
        self.is_spared(out.len()) || self.measure(out)
    }

    // Writes the edited plan as far as there is room.
    fn write(&self, out: &mut [u8]) -> Option<usize>
        ensures { Edits self.now.source.now self.now.table.now self.now.edit self.now.key.now self.now.value.now out.old out.new result }
    {
        write(
            self.source,
            self.table,
            self.edit,
            self.key,
            self.value,
            out,
        )
    }
}

// 14, and then the edited plan is written and read. The table is that of the plan given: it tells the nodes of its tokens.
fn write_plan(
    source: &[u8],
    edit: Edit,
    key: &[u8],
    value: &[u8],
    table: &mut [u64],
    out: &mut [u8],
) -> Result<usize, Refusal>
    requires { EditFits source.now table.old edit key.now value.now }
    ensures { Finishes source.now edit key.now value.now
        table.old table.new out.old out.new result }
{
    let rewrite = Rewrite {
        source,
        table,
        edit,
        key,
        value,
    };
    if !rewrite.has_room_in(out) {
        return refuse(table);
    }
    let Some(length) = rewrite.write(out) else {
        // Never: a key or a value longer than any plan, for which there was no room.
        return refuse(table);
    };
    settle(&out[..length], table)
}

// Retyping: writes the canonical text of a plan, and leaves the table that reading it leaves. A refusal writes nothing, and makes every word of the table zero.
pub fn canonicalize(source: &[u8], table: &mut [u64], out: &mut [u8]) -> Result<usize, Refusal>
    ensures { Writes (terms_of table.old) (canonical_bytes (terms_of table.old) (length out.old) source.now)
        source.now table.old table.new out.old out.new result }
{
    let reading = reader::read(source, table);
    let Ok(_) = reading else {
        return Err(reading.unwrap_err());
    };
    write_plan(source, Edit::Canonical, &[], &[], table, out)
}

// Inserting: puts one pair into the array at a node, before the pair at an index or behind the last one, and renumbers the references behind it. It leaves the
// table that reading the plan written leaves; a refusal writes nothing, and makes every word of the table zero.
pub fn insert(
    source: &[u8],
    array_node: usize,
    pair_index: usize,
    key: &[u8],
    value: &[u8],
    table: &mut [u64],
    out: &mut [u8],
) -> Result<usize, Refusal>
    ensures { Writes (terms_of table.old) (insert_bytes (terms_of table.old) (length out.old) source.now
        array_node pair_index key.now value.now)
        source.now table.old table.new out.old out.new result }
{
    let placing = locate(source, array_node, pair_index, key, value, table);
    let Ok(splice) = placing else {
        return Err(placing.unwrap_err());
    };
    write_plan(source, Edit::Splice(splice), key, value, table, out)
}
