// Texts: bytes, parts and letters.
ghost use Rattle.std.specs.Prelude.{◌≡◌, [], ◌∷◌, take};
ghost use Rattle.text.specs.Text.{Writes};
ghost use Rattle.text.specs.Spelled.{letters_of};

use words::has_letter;

// The bytes of the buffer before the place `at`.
#[derive(Drop)]
pub struct Text<'a> {
    pub buffer: &'a mut [u8],
    pub at: usize,
}

impl<'a> Text<'a> {
    pub fn new(buffer: &'a mut [u8]) -> Text<'a>
        ensures lent { result.buffer.ghost_name ≡ buffer.entry.ghost_name }
        ensures bytes { result.buffer.now ≡ buffer.old }
        ensures empty { result.at ≡ 0 }
    {
        Text { buffer, at: 0 }
    }

    pub fn len(&self) -> usize
        ensures { result ≡ self.now.at }
    {
        self.at
    }

    // Its bytes: all of the buffer's where the end lies beyond it.
    pub fn bytes(&self) -> &[u8]
        ensures { result.now ≡ take self.now.at self.now.buffer.now }
    {
        let n = self.at.min(self.buffer.len());
        &self.buffer[..n]
    }

    pub fn put(&mut self, byte: u8)
        ensures { Writes self.old (byte ∷ []) self.new }
    {
        if self.at < self.buffer.len() {
            self.buffer[self.at] = byte;
            self.at += 1;
        }
    }

    pub fn copy(&mut self, part: &[u8])
        ensures { Writes self.old part.now self.new }
    {
        for byte in part {
            self.put(*byte);
        }
    }

    pub fn letters(&mut self, word: u16)
        ensures { Writes self.old (letters_of word) self.new }
    {
        for i in 0..16 {
            if has_letter(word, i as usize) {
                self.put(b'A' + i);
            }
        }
    }
}
