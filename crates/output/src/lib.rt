// Text in a buffer that is lent. What does not fit is cut off, so that no function here asks for room.
#![tactic(auto)]

pub mod fields;

ghost use Rattle.std.specs.Prelude.{◌≤◌, length};

use text::range::part;

// The first `count` bytes of a buffer.
#[derive(Drop)]
pub struct Text<'a> {
    pub bytes: &'a mut [u8],
    pub count: usize,
    ghost within: { count ≤ length bytes.now },
}

impl<'a> Text<'a> {
    ghost use Rattle.std.specs.Prelude.{◌≡◌, ◌<◌, ◌∷◌, [], take};
    ghost use Rattle.text.specs.Range.{part};
    ghost use Rattle.output.specs.Output.{newline, digit_at, tens, printed_field};
    ghost use Rattle.output.specs.Text.{text_in, Holds, Appends};

    pub fn new(bytes: &'a mut [u8]) -> Self
        ensures { Holds bytes.entry result [] }
    {
        Text { bytes, count: 0 }
    }

    // The text that stands at the front already, of so many bytes, or as many as there are.
    pub fn front(bytes: &'a mut [u8], count: usize) -> Self
        ensures { Holds bytes.entry result (take count bytes.old) }
    {
        let count = count.min(bytes.len());
        Text { bytes, count }
    }

    pub fn as_slice(&self) -> &[u8]
        ensures { result.now ≡ text_in self.now }
    {
        &self.bytes[..self.count]
    }

    pub fn push_text(&mut self, s: &[u8])
        ensures { Appends self.old self.new s.now }
    {
        let n = s.len().min(self.bytes.len() - self.count);
        let end = self.count + n;
        self.bytes[self.count..end].copy_from_slice(&s[..n]);
        self.count = end;
    }

    // The bytes of s from a place up to another, as far as s has them.
    pub fn push_part(&mut self, s: &[u8], from: usize, to: usize)
        ensures { Appends self.old self.new (part s.now from to) }
    {
        self.push_text(part(s, from, to));
    }

    // Stored here, and not by `push_text`: a line has many single bytes, and a copy of one costs several times as much.
    pub fn push_byte(&mut self, b: u8)
        ensures { Appends self.old self.new (b ∷ []) }
    {
        if self.count < self.bytes.len() {
            self.bytes[self.count] = b;
            self.count += 1;
        }
    }

    pub fn push_line_end(&mut self)
        ensures { Appends self.old self.new newline }
    {
        self.push_byte(b'\n');
    }

    pub fn push_blank(&mut self)
        ensures { Appends self.old self.new (32 ∷ []) }
    {
        self.push_byte(b' ');
    }

    // The digit of x at a power of ten, if x reaches it.
    fn push_digit(&mut self, x: u16, power: u16)
        requires { 0 < power }
        ensures { Appends self.old self.new (digit_at x power) }
    {
        if power <= x {
            self.push_byte(b'0' + (x / power % 10) as u8);
        }
    }

    // The digits before the last.
    fn push_tens(&mut self, x: u16)
        ensures { Appends self.old self.new (tens x) }
    {
        self.push_digit(x, 10000);
        self.push_digit(x, 1000);
        self.push_digit(x, 100);
        self.push_digit(x, 10);
    }

    // A number as a field: a blank and the number.
    pub fn push_field(&mut self, x: u16)
        ensures { Appends self.old self.new (printed_field x) }
    {
        self.push_blank();
        self.push_tens(x);
        self.push_byte(b'0' + (x % 10) as u8);
    }
}
