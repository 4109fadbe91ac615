// Tokens in canonical spelling: numbers shortest, all else copied. The numbers come from the scanner's words, of an integer its pattern, read back, and not
// from the digits that stand there: so `+`, `-0` and leading zeros need no rule of their own.
ghost use Rattle.std.specs.Prelude.{◌≡◌, true, ◌+◌, ◌≤◌, length};
ghost use Rattle.rewriting.specs.Shortest.{ShortestFront, shortest_text, Bounds, Respells};

use crate::output::Output;
use format::kind::Kind;
use scanner::Text;

// Whether a number or an integer is in shortest form, by its first two bytes: a digit other than 0; or one digit and no more; or a minus and a digit other
// than 0.
pub(crate) fn is_shortest(first: u8, second: u8) -> bool
    ensures { result ≡ true → ShortestFront first second }
{
    b'1' <= first || b'9' < second || (first == b'-' && b'1' <= second)
}

// Writes the numbers of the token at an index, whose text is known, and what stands between them; the index from which its bytes stay. Its tag and its colon
// stay too.
pub(crate) fn shortest(source: &[u8], at: usize, text: Text, out: &mut Output) -> usize
    requires { Bounds source.now at text × (at + 2 ≤ text.next) }
    ensures { Respells (shortest_text source.now at text) source.now at text.next out.old result out.new }
{
    match source[at] {
        Kind::INT => {
            out.integer(text.content);
            text.next - 1
        }
        Kind::STRING => {
            out.number(text.size);
            text.content as usize - 2
        }
        Kind::ARRAY => {
            out.number(text.link);
            text.next - 2
        }
        Kind::OBJECT => {
            let name = text.content as usize;
            out.number(text.size);
            out.append(&source[name - 2..name + text.size as usize + 2]);
            out.number(text.link);
            text.next - 2
        }
        Kind::OBJECT_REFERENCE | Kind::VARIABLE_REFERENCE => {
            out.number(text.content);
            text.next - 1
        }
        _ => {
            out.append(&source[at + 2..text.next]);
            text.next
        }
    }
}
