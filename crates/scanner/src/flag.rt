// The semicolon of an N, the bit of a b. The index is the one behind the tag.
ghost use Rattle.format.specs.Read.{bool_text};
ghost use Rattle.scanner.specs.Scans.{Answers, null_text, nothing_told, bool_told};

use crate::{Text, expect};
use bytes_at::bytes_are;
use format::codes::Code;

// The semicolon of an N.
pub(crate) fn null(source: &[u8], at: usize) -> Result<Text, Code>
    ensures { Answers null_text nothing_told source.now at result }
{
    expect(source, at, b';')?;
    Ok(Text {
        content: 0,
        size: 0,
        link: 0,
        next: at + 1,
    })
}

// The bit of a b.
pub(crate) fn boolean(source: &[u8], at: usize) -> Result<Text, Code>
    ensures { Answers bool_text bool_told source.now at result }
{
    expect(source, at, b':')?;
    if bytes_are(source, at + 1, b'0', b';') {
        return Ok(Text {
            content: 0,
            size: 0,
            link: 0,
            next: at + 3,
        });
    }
    if bytes_are(source, at + 1, b'1', b';') {
        return Ok(Text {
            content: 1,
            size: 0,
            link: 0,
            next: at + 3,
        });
    }
    Err(Code::TextUnfit)
}
