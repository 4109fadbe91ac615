// The services that write a plan, for C.
ghost use Rattle.std.specs.Prelude.{◌≡◌, length};
ghost use Rattle.format.specs.Writing.{canonical_bytes, insert_bytes};
ghost use Rattle.format.specs.Reading.{terms_of};
ghost use Rattle.editor.specs.Promise.{writing_answer};
ghost use Rattle.tonschnecke.specs.Promise.{writing_of, TonWrites};

use format::codes::Refusal;

// What a service that writes a plan answers. Code 0: written, and `at` is 0; a refusal has length 0.
#[repr(C)]
#[derive(Clone, Copy)]
pub struct TonWriting {
    pub code: u64,
    pub at: u64,
    pub length: u64,
}

// The answer as C gets it.
#[tactic(auto, unfolding(crate::specs::Promise::writing_of, editor::specs::Promise::writing_answer))]
impl From<Result<usize, Refusal>> for TonWriting {
    ghost from_gives = { λ writing r. r ≡ writing_of (writing_answer writing) };

    fn from(writing: Result<usize, Refusal>) -> TonWriting {
        match writing {
            Ok(length) => TonWriting {
                code: 0,
                at: 0,
                length: length as u64,
            },
            Err(Refusal { code, at }) => TonWriting {
                code: u64::from(u8::from(code)),
                at: at as u64,
                length: 0,
            },
        }
    }
}

// Writes the canonical text of a plan, and leaves the table that reading it leaves. A refusal writes nothing, and makes every word of the table zero.
#[unsafe(no_mangle)]
pub extern "C" fn ton_canonicalize(source: &[u8], table: &mut [u64], out: &mut [u8]) -> TonWriting
    ensures { TonWrites (terms_of table.old) (canonical_bytes (terms_of table.old) (length out.old) source.now)
        source.now table.old table.new out.old out.new result }
{
    TonWriting::from(editor::canonicalize(source, table, out))
}

// Puts one pair into an array of a plan, and leaves the table that reading the plan written leaves. A refusal writes nothing, and makes every word of the
// table zero.
#[unsafe(no_mangle)]
pub extern "C" fn ton_insert(
    source: &[u8],
    array_node: usize,
    pair_index: usize,
    key: &[u8],
    value: &[u8],
    table: &mut [u64],
    out: &mut [u8],
) -> TonWriting
    ensures { TonWrites (terms_of table.old) (insert_bytes (terms_of table.old) (length out.old) source.now
        array_node pair_index key.now value.now)
        source.now table.old table.new out.old out.new result }
{
    TonWriting::from(editor::insert(source, array_node, pair_index, key, value, table, out))
}
