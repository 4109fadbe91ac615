// Reading, for C.
ghost use Rattle.std.specs.Prelude.{◌≡◌};
ghost use Rattle.reader.specs.Promise.{reading_answer};
ghost use Rattle.tonschnecke.specs.Promise.{reading_of, TonReads};

use format::codes::Refusal;
use reader::Counts;

// What reading answers. Code 0: accepted, and `at` is 0; a refusal has 0 nodes and 0 ordinals.
#[repr(C)]
#[derive(Clone, Copy)]
pub struct TonReading {
    pub code: u64,
    pub at: u64,
    pub nodes: u64,
    pub ordinals: u64,
}

// The answer as C gets it.
#[tactic(auto, unfolding(crate::specs::Promise::reading_of, reader::specs::Promise::reading_answer))]
impl From<Result<Counts, Refusal>> for TonReading {
    ghost from_gives = { λ reading r. r ≡ reading_of (reading_answer reading) };

    fn from(reading: Result<Counts, Refusal>) -> TonReading {
        match reading {
            Ok(Counts { nodes, ordinals }) => TonReading {
                code: 0,
                at: 0,
                nodes: nodes as u64,
                ordinals: ordinals as u64,
            },
            Err(Refusal { code, at }) => TonReading {
                code: u64::from(u8::from(code)),
                at: at as u64,
                nodes: 0,
                ordinals: 0,
            },
        }
    }
}

// Reads a plan into the table; a refusal makes every word of it zero.
#[unsafe(no_mangle)]
pub extern "C" fn ton_read(source: &[u8], table: &mut [u64]) -> TonReading
    ensures { TonReads source.now table.old table.new result }
{
    TonReading::from(reader::read(source, table))
}
