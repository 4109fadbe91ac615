// The head of a container: from its tag on to its first pair.
ghost use Rattle.std.specs.Prelude.{◌+◌, ◌<◌, length};
ghost use Rattle.format.specs.Read.{head_text};
ghost use Rattle.scanner.specs.Scans.{Scans, head_told};
ghost use Rattle.reader.specs.Texts.{is_array_tag, container_tag};

use format::codes::Code;
use format::kind::Kind;
use scanner::Text;

// The head of a container whose tag stands at an index.
#[tactic(auto, unfolding(crate::specs::Texts::is_array_tag))]
pub(crate) fn head(source: &[u8], at: usize, tag: u8) -> Result<Text, Code>
    requires { (at < length source.now) × container_tag tag }
    ensures { Scans (head_text (is_array_tag tag)) (head_told (at + 1)) source.now (at + 1) result }
{
    match tag {
        Kind::ARRAY => scanner::head::array(source, at + 1),
        _ => scanner::head::object(source, at + 1),
    }
}
