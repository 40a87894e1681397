// Text written into lent bytes: the bytes before it stay, and so do those behind it. `lines` has the lines that a drive prints.

#![tactic(auto)]

pub mod lines;

ghost use Rattle.std.specs.Prelude.{◌≡◌, ◌+◌, ◌<◌, ◌≤◌, [], ◌∷◌, length, take};
ghost use Rattle.printing.specs.Text.{decimal, number};
ghost use Rattle.printing.specs.Pages.{Writes, SamePage};

use itoa::Buffer;

// Lent bytes, and the length of the text that stands first in them.
#[derive(Drop)]
pub struct Page<'a> {
    pub bytes: &'a mut [u8],
    pub length: usize,
}

impl<'a> Page<'a> {
    // What is written. (That it lies in the bytes is asked here alone: every put asks for more.)
    pub fn text(&self) -> &[u8]
        requires { self.now.length ≤ length self.now.bytes.now }
        ensures { result.now ≡ take self.now.length self.now.bytes.now }
    {
        &self.bytes[..self.length]
    }

    pub fn put_byte(&mut self, byte: u8)
        requires { self.old.length < length self.old.bytes.now }
        ensures text { Writes (byte ∷ []) self.old self.new }
        ensures same { SamePage self.old self.new }
    {
        self.bytes[self.length] = byte;
        self.length += 1;
    }

    pub fn put_words(&mut self, words: &[u8])
        requires { self.old.length + length words.now ≤ length self.old.bytes.now }
        ensures text { Writes words.now self.old self.new }
        ensures same { SamePage self.old self.new }
    {
        let end = self.length + words.len();
        self.bytes[self.length..end].copy_from_slice(words);
        self.length = end;
    }

    pub fn put_decimal(&mut self, n: usize)
        requires { self.old.length + 19 < length self.old.bytes.now }
        ensures text { Writes (decimal n) self.old self.new }
        ensures same { SamePage self.old self.new }
    {
        let mut digits = Buffer::new();
        self.put_words(digits.format(n).as_bytes());
    }

    // A number, and a character behind it.
    pub fn put_number(&mut self, n: usize, end: u8)
        requires { self.old.length + 20 < length self.old.bytes.now }
        ensures text { Writes (number n end) self.old self.new }
        ensures same { SamePage self.old self.new }
    {
        self.put_decimal(n);
        self.put_byte(end);
    }
}
