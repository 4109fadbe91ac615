// Texts written to a lent output. Stores past its end are lost, so that the same code measures a text and writes it.
ghost use Rattle.std.specs.Prelude.{◌≡◌, length};
ghost use Rattle.decimal.specs.Digits.{decimal};
ghost use Rattle.rewriting.specs.Output.{signed_digits, Appends};

use decimal::Signed;

// The bytes of a text, where as many stand. Not `copy_from_slice`: that is a call of `memmove`, which a program in C that links the archive would have to have.
fn copy(text: &[u8], out: &mut [u8])
    requires { length text.now ≡ length out.old }
    ensures { out.new ≡ text.now }
{
    for i in 0..out.len() {
        out[i] = text[i];
    }
}

// A lent output, and how long the text is that was written to it so far, whatever the room. The length is held at the highest index, so that no caller owes a
// bound; that it is never reached is known of an edited text (`edited-index`, proofs/Editable).
#[derive(Drop)]
pub(crate) struct Output<'a> {
    pub(crate) bytes: &'a mut [u8],
    pub(crate) length: usize,
}

impl Output<'_> {
    // A text.
    pub(crate) fn append(&mut self, text: &[u8])
        ensures { Appends text.now self.old self.new }
    {
        let start = self.length.min(self.bytes.len());
        let count = text.len().min(self.bytes.len() - start);
        copy(&text[..count], &mut self.bytes[start..start + count]);
        self.length = self.length.saturating_add(text.len());
    }

    // A number in shortest form.
    pub(crate) fn number(&mut self, n: u64)
        ensures { Appends (decimal n) self.old self.new }
    {
        let digits = decimal::write_decimal(self.bytes, self.length, n);
        self.length = self.length.saturating_add(digits);
    }

    // An integer in shortest form, by its two's complement pattern.
    pub(crate) fn integer(&mut self, word: u64)
        ensures { Appends (signed_digits word) self.old self.new }
    {
        let signed = Signed::from(word);
        if signed.negative {
            self.append(b"-");
        }
        self.number(signed.magnitude);
    }
}
