// Texts between quotes: of s, and O's class name. The index is the one behind the tag.
ghost use Rattle.std.specs.Prelude.{[], ◌∷◌};
ghost use Rattle.format.specs.Bytes.{byte};
ghost use Rattle.format.specs.Read.{quoted_text};
ghost use Rattle.scanner.specs.Scans.{Answers, quoted_told};

use crate::number::number;
use crate::{Text, expect};
use format::codes::Code;

// A length and so many bytes between quotes, "of any kind": the length alone says where they end.
pub(crate) fn quoted(source: &[u8], at: usize, close: u8) -> Result<Text, Code>
    ensures { Answers (λ l. quoted_text l (byte "\"" ∷ close ∷ [])) (quoted_told at) source.now at result }
{
    expect(source, at, b':')?;
    let run = number(source, at + 1)?;
    let colon = run.next;
    let size = run.content as usize;
    // One test of the room for all that follows: each refusal is the same, and LLVM keeps a function of this size in line.
    if source.len() - colon < size + 4 {
        return Err(Code::TextUnfit);
    }
    let offset = colon + 2;
    let end = offset + size;
    if source[colon] != b':'
        || source[colon + 1] != b'"'
        || source[end] != b'"'
        || source[end + 1] != close
    {
        return Err(Code::TextUnfit);
    }
    Ok(Text {
        content: offset as u64,
        size: run.content,
        link: 0,
        next: end + 2,
    })
}
