// The heads of containers, up to the first pair. The index is the one behind the tag.
ghost use Rattle.std.specs.Prelude.{true, false};
ghost use Rattle.format.specs.Read.{head_text};
ghost use Rattle.scanner.specs.Scans.{Answers, head_told};

use crate::number::count;
use crate::quoted::quoted;
use crate::{Text, expect};
use format::codes::Code;

// An array's count of pairs.
pub fn array(source: &[u8], at: usize) -> Result<Text, Code>
    ensures { Answers (head_text true) (head_told at) source.now at result }
{
    expect(source, at, b':')?;
    count(source, at + 1)
}

// An object's class name and its count of pairs.
pub fn object(source: &[u8], at: usize) -> Result<Text, Code>
    ensures { Answers (head_text false) (head_told at) source.now at result }
{
    let name = quoted(source, at, b':')?;
    let pairs = count(source, name.next)?;
    Ok(Text {
        content: name.content,
        size: name.size,
        link: pairs.link,
        next: pairs.next,
    })
}
