// A writer of bytes. It keeps the slice that it was given, which the clauses `same_reference` and `long` say.
ghost use Rattle.std.specs.Prelude.{◌≡◌, [], ◌∷◌, length};
ghost use Rattle.encoding.specs.Decimal.{field};
ghost use Rattle.encoding.specs.ByteWriting.{BytesWritten};

use itoa::Buffer;

// Writes one thing after the other into a slice, as far as it reaches; `next` is the index of the next byte. It stays at the end of the
// slice, where a writer of table words (emitter) counts on.
#[derive(Drop)]
pub struct ByteWriter<'a> {
    pub out: &'a mut [u8],
    pub next: usize,
}

impl<'a> ByteWriter<'a> {
    // It begins at the front of the slice.
    pub fn new(out: &'a mut [u8]) -> ByteWriter<'a>
        ensures same_reference { result.out.ghost_name ≡ out.entry.ghost_name }
        ensures bytes { result.out.now ≡ out.old }
        ensures next { result.next ≡ 0 }
    {
        ByteWriter { out, next: 0 }
    }

    // One byte.
    fn write_byte(&mut self, byte: u8)
        ensures same_reference { self.new.out.ghost_name ≡ self.old.out.ghost_name }
        ensures long { length self.new.out.now ≡ length self.old.out.now }
        ensures written { BytesWritten self.old.next (byte ∷ []) self.old.out.now self.new.out.now self.new.next }
    {
        let at = self.next;
        if at < self.out.len() {
            self.out[at] = byte;
            self.next = at + 1;
        }
    }

    // The bytes of a text.
    pub fn write_text(&mut self, text: &[u8])
        ensures same_reference { self.new.out.ghost_name ≡ self.old.out.ghost_name }
        ensures long { length self.new.out.now ≡ length self.old.out.now }
        ensures written { BytesWritten self.old.next text.now self.old.out.now self.new.out.now self.new.next }
    {
        for byte in text {
            self.write_byte(*byte);
        }
    }

    // A number in decimal, and then the byte `end`.
    pub fn write_field(&mut self, n: usize, end: u8)
        ensures same_reference { self.new.out.ghost_name ≡ self.old.out.ghost_name }
        ensures long { length self.new.out.now ≡ length self.old.out.now }
        ensures written { BytesWritten self.old.next (field n end) self.old.out.now self.new.out.now self.new.next }
    {
        let mut digits = Buffer::new();
        self.write_text(digits.format(n).as_bytes());
        self.write_byte(end);
    }
}
