// Words and numbers, put into a slice one after another; where the slice is full, no more is put.
#![tactic(auto)]

ghost use Rattle.std.specs.Prelude.{◌≡◌, ◌-◌, [], ◌∷◌};
ghost use Rattle.text.specs.Text.{decimal, out};
ghost use Rattle.text.specs.Field.{blanks as Field·blanks, right as Field·right, padded};

// A slice that text is put into, and the place where the next byte goes.
// stays: of its own beside std's `Cursor<&mut [u8]>`, which is no plainer: no clause of that one's `write` says that it still holds the
// slice that was lent, so that nobody would know what is in the slice afterwards; and its result has to be taken at each word. `write!`
// and `Display` say what was written only where they answer Ok, and every put here says it for a full slice too.
#[derive(Drop)]
pub struct Cursor<'a> {
    bytes: &'a mut [u8],
    next: usize,
}

impl<'a> Cursor<'a> {
    ghost use Rattle.text.specs.Cursor.{Puts, has_put};

    // From a place of a slice on.
    pub fn new(bytes: &'a mut [u8], next: usize) -> Cursor<'a>
        ensures same_reference { result.bytes.ghost_name ≡ bytes.entry.ghost_name }
        ensures value { has_put result ≡ out bytes.old next }
    {
        Cursor { bytes, next }
    }

    // The place after what was put.
    pub fn place(&self) -> usize
        ensures { result ≡ self.now.next }
    {
        self.next
    }

    // One byte.
    pub fn put_byte(&mut self, byte: u8)
        ensures { Puts (byte ∷ []) self.old self.new }
    {
        if self.next < self.bytes.len() {
            self.bytes[self.next] = byte;
            self.next += 1;
        }
    }

    // The bytes of a word.
    pub fn put(&mut self, word: &[u8])
        ensures { Puts word.now self.old self.new }
    {
        for byte in word {
            self.put_byte(*byte);
        }
    }

    // So many blanks.
    pub fn blanks(&mut self, count: usize)
        ensures { Puts (Field·blanks count) self.old self.new }
    {
        for _ in 0..count {
            self.put_byte(b' ');
        }
    }

    // A number in decimal.
    pub fn number(&mut self, n: u32)
        ensures { Puts (decimal n) self.old self.new }
    {
        let mut buffer = itoa::Buffer::new();
        self.put(buffer.format(n).as_bytes());
    }

    // A number in decimal, right in a field of this width.
    pub fn right(&mut self, width: usize, n: u32)
        ensures { Puts (Field·right width (decimal n)) self.old self.new }
    {
        let mut buffer = itoa::Buffer::new();
        let digits = buffer.format(n).as_bytes();
        self.blanks(width.saturating_sub(digits.len()));
        self.put(digits);
    }

    // A word, padded in a field of this width.
    pub fn left(&mut self, width: usize, word: &[u8])
        ensures { Puts (padded width word.now) self.old self.new }
    {
        self.put(word);
        self.blanks(width.saturating_sub(word.len()));
    }
}
