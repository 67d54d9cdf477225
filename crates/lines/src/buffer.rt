// A text that is written to a buffer piece by piece.
ghost use Rattle.std.specs.Prelude.{◌≡◌, ◌+◌, ◌<◌, ◌≤◌, [], ◌∷◌, length};
ghost use Rattle.lines.specs.Listing.{ended};
ghost use Rattle.lines.specs.Steps.{Room};

use itoa::{Buffer, Integer};

// The first `end` bytes of `out` are the text so far.
#[derive(Drop)]
pub struct Text<'a> {
    out: &'a mut [u8],
    end: usize,
}

impl<'a> Text<'a> {
    ghost use Rattle.lines.specs.Written.{Written};

    // A text of no bytes.
    pub fn new(out: &'a mut [u8]) -> Text<'a>
        ensures same_reference { result.out.ghost_name ≡ out.entry.ghost_name }
        ensures same_bytes { result.out.now ≡ out.old }
        ensures empty { result.end ≡ 0 }
    {
        Text { out, end: 0 }
    }

    // How many bytes are written.
    pub fn len(&self) -> usize
        ensures { result ≡ self.now.end }
    {
        self.end
    }

    // Writes bytes behind the text so far.
    pub fn write(&mut self, bytes: &[u8])
        requires { Room self.old.end bytes.now self.old.out.now }
        ensures { Written (length bytes.now) bytes.now self.old self.new }
    {
        let end = self.end + bytes.len();
        self.out[self.end..end].copy_from_slice(bytes);
        self.end = end;
    }

    // Writes one byte behind the text so far.
    fn push(&mut self, byte: u8)
        requires { self.old.end < length self.old.out.now }
        ensures { Written 1 (byte ∷ []) self.old self.new }
    {
        self.out[self.end] = byte;
        self.end += 1;
    }

    // Writes a number in decimal and the byte after it.
    pub fn write_number<I: Integer>(&mut self, number: I, after: u8)
        requires { self.old.end + I.MAX_STR_LEN + 1 ≤ length self.old.out.now }
        ensures { Written (I.MAX_STR_LEN + 1) (ended (I.text number) after) self.old self.new }
    {
        let mut digits = Buffer::new();
        self.write(digits.format(number).as_bytes());
        self.push(after);
    }
}
