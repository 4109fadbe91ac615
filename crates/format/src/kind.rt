// The nine kinds, by their tags.
ghost use Rattle.std.specs.Prelude.{◌≡◌};
ghost use Rattle.format.specs.Kind.{has_ordinal, may_be_key, has_text};

// A kind, by its tag. (The paper's letter of a kind is its tag.) A struct with constants, and tags handed on as bytes: paper 01 asks for this form.
#[derive(Clone, Copy, Debug, PartialEq, Eq)]
pub struct Kind {
    pub tag: u8,
}

impl Kind {
    pub const NULL: u8 = b'N';

    pub const BOOL: u8 = b'b';

    pub const INT: u8 = b'i';

    pub const FLOAT: u8 = b'd';

    pub const STRING: u8 = b's';

    pub const ARRAY: u8 = b'a';

    pub const OBJECT: u8 = b'O';

    pub const OBJECT_REFERENCE: u8 = b'r';

    pub const VARIABLE_REFERENCE: u8 = b'R';

    // Whether a value of the kind takes an ordinal.
    pub fn has_ordinal(self) -> bool
        ensures { result ≡ has_ordinal self.tag }
    {
        let tag = self.tag;
        match tag {
            Kind::NULL | Kind::BOOL | Kind::INT | Kind::FLOAT | Kind::STRING => true,
            Kind::ARRAY | Kind::OBJECT => true,
            Kind::OBJECT_REFERENCE => true,
            _ => false,
        }
    }

    // Whether the kind may be a key of some container.
    pub fn may_be_key(self) -> bool
        ensures { result ≡ may_be_key self.tag }
    {
        let tag = self.tag;
        match tag {
            Kind::INT | Kind::STRING => true,
            _ => false,
        }
    }

    // Whether words 2 and 3 of a node of the kind tell a text.
    pub fn has_text(self) -> bool
        ensures { result ≡ has_text self.tag }
    {
        let tag = self.tag;
        match tag {
            Kind::FLOAT | Kind::STRING | Kind::OBJECT => true,
            _ => false,
        }
    }
}
