// The texts behind a tag. Takes a source and any index, and gives what the text from there on tells its value's node and where it ends; or refuses it, with 2
// (past the end too), 5, or 3 for a tag that is no scalar's. A refusal carries its number alone: the position is the tag's, which the caller knows.
// Public are `scalar`, `named` (the ordinal of a reference), `array` and `object` (heads), `key` and `value` (`scalar` in line: see in_line.rt), and
// `plain_end`, by which rewriting passes floats; the texts of single kinds are private. Reader, tokens, placing and rewriting call them. A key is scanned as
// the scalar that it would be, once its tag was looked at: keys and values have one definition of their texts, `scalar_behind`.
// One shape of promise (`Answers`): the answer (`scan_answer`) is what the definition reads from that index on, as words 2, 3 and 4 of the node (`text_answer`);
// and, for those who go on reading, what was read (`Scans`); both wherever the tag stands. `plain_end` answers no scan, but an index: `plain_float_end`.
#![tactic(auto)]

ghost use Rattle.scanner.specs.Parts.{Expects};

use bytes_at::byte_is;
use format::codes::Code;

mod flag;
pub mod float;
pub mod head;
pub mod in_line;
pub mod number;
mod quoted;
pub mod scalar;

// What a text tells: words 2, 3 and 4 of the node, and the index after the text. Words that stand side by side in a node stand apart here: loaded as one pair,
// they would wait for the two stores of the scan.
#[derive(Clone, Copy)]
pub struct Text {
    pub content: u64,
    pub link: u64,
    pub next: usize,
    pub size: u64,
}

// A byte that has to stand at an index.
pub(crate) fn expect(source: &[u8], at: usize, b: u8) -> Result<(), Code>
    ensures { Expects source.now at b result }
{
    if byte_is(source, at, b) {
        return Ok(());
    }
    Err(Code::TextUnfit)
}
