// Refusals, for code: "A refusal returns its number and a position".
ghost use Rattle.std.specs.Prelude.{◌≡◌, Some};
ghost use Rattle.format.specs.Codes.{number_of, refusal_text};

use std::fmt;

// What a refusal refuses, by the paper's table; the comment at each is its row there.
#[derive(Clone, Copy, Debug, PartialEq, Eq)]
pub enum Code {
    // "plan longer than 65,536 bytes"
    SourceTooLong = 1,
    // "text not of its kind's form, or ends too soon"
    TextUnfit = 2,
    // "value's letter not one of the nine"
    TagUnknown = 3,
    // "key's letter not allowed in this container"
    KeyNotAllowed = 4,
    // "i out of range, or a number above 65,536"
    OutOfRange = 5,
    // "no earlier value carries the number named"
    NothingNamed = 6,
    // "no room for the node"
    TableFull = 7,
    // "depth above 64"
    TooDeep = 8,
    // "key equal to an earlier key of its container"
    KeyRepeated = 9,
    // "bytes after the plan"
    BytesBehind = 10,
    // "index names no `a` node"
    NoArray = 11,
    // "place above the array's count"
    NoPlace = 12,
    // "key or value text unfit"
    PairUnfit = 13,
    // "bytes to write exceed the output's length or 65,536"
    OutputTooShort = 14,
}

// A refusal: what is refused, and where.
#[derive(Clone, Copy, Debug, PartialEq, Eq)]
pub struct Refusal {
    pub code: Code,
    pub at: usize,
}

impl Code {
    // The refusal of this number at a position.
    pub fn at(self, at: usize) -> Refusal
        ensures { result ≡ record { code = self; at = at } }
    {
        Refusal { code: self, at }
    }
}

// The paper's number.
impl From<Code> for u8 {
    ghost from_gives = { λ code n. n ≡ number_of code };

    fn from(code: Code) -> u8 {
        code as u8
    }
}

// As the programs print it: `refused 2 at 0`.
impl fmt::Display for Refusal {
    ghost output = { λ refusal. Some (refusal_text refusal) };

    fn fmt<W: fmt::Write>(&self, f: &mut fmt::Formatter<W>) -> fmt::Result {
        write!(f, "refused {} at {}", u8::from(self.code), self.at)
    }
}
