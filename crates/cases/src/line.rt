// A line and its parts. A part is named by the number of spaces before it; one that is not there is empty.
ghost use Rattle.std.specs.Prelude.{◌≡◌, ◌≢◌, ◌<◌, ◌≤◌, ◌++◌, ◌∷◌, length, All, IfSome, MatchOption};

// What a line stands for, in a lent buffer: its first bytes, so many. The buffer is lent, since a struct that holds it is copied whole by whoever returns it.
#[derive(Drop)]
pub(crate) struct Line<'a> {
    bytes: &'a mut [u8],
    size: usize,
    ghost inside: { size ≤ length bytes.now },
}

impl Line<'_> {
    pub(crate) fn text(&self) -> &[u8] {
        &self.bytes[..self.size]
    }

    // Adds a text, if there is room.
    fn append(&mut self, text: &[u8]) {
        if let Some(room) = self.bytes[self.size..].get_mut(..text.len()) {
            room.copy_from_slice(text);
            self.size += text.len();
        }
    }
}

// A part with all that stands behind it.
pub(crate) fn part(line: &[u8], spaces: usize) -> &[u8] {
    line.splitn(spaces.saturating_add(1), |byte| *byte == b' ')
        .nth(spaces)
        .unwrap_or_default()
}

// A part up to the next space.
pub(crate) fn field(line: &[u8], spaces: usize) -> &[u8] {
    line.split(|byte| *byte == b' ')
        .nth(spaces)
        .unwrap_or_default()
}

pub(crate) fn number(line: &[u8], spaces: usize) -> usize {
    decimal::run_at(part(line, spaces), 0, u64::MAX).value as usize
}

// How much is lent, of so much at the most.
pub(crate) fn lent(line: &[u8], spaces: usize, most: usize) -> usize
    ensures { result ≤ most }
{
    number(line, spaces).min(most)
}

// What stands before the first such byte, and what behind it.
fn split_once(text: &[u8], sought: u8) -> Option<(&[u8], &[u8])>
    ensures shorter { IfSome result (λ parts. length parts.1.now < length text.now) }
    ensures whole { IfSome result (λ parts. text.now ≡ parts.0.now ++ (sought ∷ parts.1.now)) }
    ensures first { MatchOption result (All (λ byte. byte ≢ sought) text.now)
        (λ parts. All (λ byte. byte ≢ sought) parts.0.now) }
{
    let at = text.iter().position(|byte| *byte == sought)?;
    Some((&text[..at], &text[at + 1..]))
}

// The same with a text so many times: how many times, a space, the text.
fn append_repeated(line: &mut Line<'_>, bracket: &[u8]) {
    let Some((_, text)) = split_once(bracket, b' ') else {
        return;
    };
    let times = decimal::run_at(bracket, 0, 70000).value;
    for _ in 0..times {
        line.append(text);
    }
}

// What a line stands for.
pub(crate) fn expand<'a>(text: &[u8], buffer: &'a mut [u8]) -> Line<'a> {
    let mut line = Line {
        bytes: buffer,
        size: 0,
    };
    let mut rest = text;
    while let Some((before, bracket)) = split_once(rest, b'[') {
        line.append(before);
        let Some((repeated, behind)) = split_once(bracket, b']') else {
            return line;
        };
        append_repeated(&mut line, repeated);
        rest = behind;
    }
    line.append(rest);
    line
}
