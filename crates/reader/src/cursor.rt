// How far reading is, and whether there is room for a value.
ghost use Rattle.std.specs.Prelude.{◌≡◌};
ghost use Rattle.scanner.specs.Scans.{scan_answer};
ghost use Rattle.reader.specs.Steps.{step_answer, room_at};

use format::codes::{Code, Refusal};
use scanner::Text;

// The next byte, the next node, the ordinals taken and the levels left.
#[derive(Clone, Copy)]
pub struct Cursor {
    pub at: usize,
    pub node: usize,
    pub ordinal: usize,
    pub levels: usize,
}

// The text of a scan behind a tag, whose refusal stands at the tag.
pub(crate) fn text_at(scan: Result<Text, Code>, at: usize) -> Result<Text, Refusal>
    ensures { step_answer result ≡ scan_answer at scan }
{
    scan.map_err(|code| code.at(at))
}

// "At a letter: 3 or 4, then 8, then 7": the checks of a value behind the choice of its kind.
#[tactic(auto, unfolding(crate::specs::Steps::room_at))]
pub(crate) fn check_room(capacity: usize, cursor: Cursor) -> Result<(), Refusal>
    ensures { step_answer result ≡ room_at capacity cursor }
{
    if cursor.levels == 0 {
        return Err(Code::TooDeep.at(cursor.at));
    }
    if capacity <= cursor.node {
        return Err(Code::TableFull.at(cursor.at));
    }
    Ok(())
}
