// The texts of scalars, by their tag. The index is the one behind it.
ghost use Rattle.scanner.specs.Scans.{Answers, scalar_behind, scalar_told};

use crate::Text;
use crate::flag::{boolean, null};
use crate::float::float;
use crate::number::int;
use crate::quoted::quoted;
use format::codes::Code;
use format::kind::Kind;

// Behind the closing quote of an s.
pub(crate) const STRING_END: u8 = b';';

// The text of a scalar with this tag; any other tag is refused with 3.
#[inline(never)]
pub fn scalar(source: &[u8], at: usize, tag: u8) -> Result<Text, Code>
    ensures { Answers (scalar_behind tag) (scalar_told at) source.now at result }
{
    match tag {
        Kind::NULL => null(source, at),
        Kind::BOOL => boolean(source, at),
        Kind::INT => int(source, at),
        Kind::FLOAT => float(source, at),
        Kind::STRING => quoted(source, at, STRING_END),
        _ => Err(Code::TagUnknown),
    }
}
