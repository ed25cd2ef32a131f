// Reading the recorded answers from a place on. A place past the end is the end, and a byte there counts as 0, so that no file breaks a reader.
ghost use Rattle.std.specs.Prelude.{◌≡◌, ◌≤◌, length};
ghost use Rattle.area.specs.Bytes.{field_at};
ghost use Rattle.recorded.specs.Records.{next_bytes, front_at, number_at, long_at, bytes_at, bytes_end};

use characters::whitespace::byte_at;
use std::array;
use text::range::part;

// The N bytes from a place on; those past the end count as 0.
fn front<const N: usize>(answers: &[u8], at: usize) -> [u8; N]
    ensures { result ≡ front_at N answers.now at }
{
    let bytes = part(answers, at, answers.len());
    array::from_fn(|i| byte_at(bytes, i))
}

// A number of four bytes, low byte first, at any place, also one past the end, where no cursor stands.
pub fn number(answers: &[u8], at: usize) -> u32
    ensures { result ≡ number_at answers.now at }
{
    u32::from_le_bytes(front(answers, at))
}

// A place of the answers.
#[derive(Clone, Copy)]
pub struct Cursor<'a> {
    pub answers: &'a [u8],
    pub at: usize,
    ghost within: { at ≤ length answers.now },
}

impl<'a> Cursor<'a> {
    ghost use Rattle.recorded.specs.Cursor.{behind, GoesTo, Reads};

    // All of the answers and a place in them, no part of them: the definitions count from the file's start.
    pub fn new(answers: &'a [u8], at: usize) -> Self
        requires { at ≤ length answers.now }
        ensures { (result.answers.now ≡ answers.entry.now) × (result.at ≡ at) }
    {
        Cursor { answers, at }
    }

    // Goes n bytes on.
    pub fn skip(&mut self, n: usize)
        ensures { GoesTo (behind n) self.old self.new }
    {
        self.at += n.min(self.answers.len() - self.at);
    }

    // The next n bytes, or as many as there are.
    pub fn take(&mut self, n: usize) -> &'a [u8]
        ensures { Reads (next_bytes n) (behind n) self.old self.new result.now }
    {
        let from = self.at;
        self.skip(n);
        &self.answers[from..self.at]
    }

    // The next N bytes; those past the end count as 0.
    fn front<const N: usize>(&mut self) -> [u8; N]
        ensures { Reads (front_at N) (behind N) self.old self.new result }
    {
        let bytes = front(self.answers, self.at);
        self.skip(N);
        bytes
    }

    // A number of two bytes, low byte first.
    pub fn field(&mut self) -> u16
        ensures { Reads field_at (behind 2) self.old self.new result }
    {
        u16::from_le_bytes(self.front())
    }

    // A number of four bytes, low byte first.
    pub fn number(&mut self) -> u32
        ensures { Reads number_at (behind 4) self.old self.new result }
    {
        let n = number(self.answers, self.at);
        self.skip(4);
        n
    }

    // A number of eight bytes, low byte first.
    pub fn long(&mut self) -> u64
        ensures { Reads long_at (behind 8) self.old self.new result }
    {
        u64::from_le_bytes(self.front())
    }

    // The bytes that start with their length.
    pub fn bytes(&mut self) -> &'a [u8]
        ensures { Reads bytes_at bytes_end self.old self.new result.now }
    {
        let n = self.number() as usize;
        self.take(n)
    }
}
