// What the programs share: reading an input or a file into a buffer, its texts one by one, and saying what is printed and what failed.
#![tactic(auto)]

ghost use Rattle.std.specs.Prelude.{◌≡◌, ◌≤◌, ◌<◌, ◌∷◌, eqb, length, IfSome};
ghost use Rattle.std.specs.List.{position};
ghost use Rattle.streams.specs.Texts.{texts, Shown};

use std::fs::{File, Files};
use std::io;
use std::io::Read;

// What was read of an input, and the failure that ended it, if one did.
#[derive(Drop)]
pub struct Source<'a> {
    pub text: &'a [u8],
    pub failure: Option<io::Error>,
}

// Reads until the buffer is full, the input ends or a read fails. The place is counted by hand: `Read` has nothing that says how far it came.
pub fn read_source<'a>(input: &mut impl Read, buffer: &'a mut [u8]) -> Source<'a>
    ensures { length result.text.now ≤ length buffer.old }
{
    let mut done = 0;
    let mut failure = None;
    while done < buffer.len() {
        match input.read(&mut buffer[done..]) {
            Ok(n) if n > 0 => done += n,
            ended => {
                failure = ended.err();
                break;
            }
        }
    }
    Source {
        text: &buffer[..done],
        failure,
    }
}

// The same where a failure ends the input.
pub fn read_full<'a>(input: &mut impl Read, buffer: &'a mut [u8]) -> &'a [u8]
    ensures { length result.now ≤ length buffer.old }
{
    read_source(input, buffer).text
}

// The same of a file, by its name. Where it cannot be opened, that is said, and None is answered.
pub fn read_file<'a, R: Files + Eprint>(
    rt: &R,
    name: &str,
    buffer: &'a mut [u8],
) -> Option<&'a [u8]>
    ensures { IfSome result (λ text. length text.now ≤ length buffer.old) }
{
    match File::open(rt, name) {
        Ok(mut file) => Some(read_full(&mut file, buffer)),
        Err(error) => {
            fail(rt, name, error);
            None
        }
    }
}

// Where the first text of these bytes ends.
fn text_end(bytes: &[u8], end: u8) -> Option<usize>
    ensures { result ≡ position (λ b. eqb b end) bytes.now }
{
    bytes.iter().position(|byte| *byte == end)
}

// The first text of these bytes, and what stands behind the byte that ends it.
fn split_first_text(bytes: &[u8], end: u8) -> (&[u8], &[u8])
    requires { 0 < length bytes.now }
    ensures texts { texts end bytes.now ≡ result.0.now ∷ texts end result.1.now }
    ensures shorter { length result.1.now < length bytes.now }
{
    match text_end(bytes, end) {
        Some(n) => (&bytes[..n], &bytes[n + 1..]),
        None => (bytes, &[]),
    }
}

// Shows each text of an input, where a byte ends a text: a zero byte, or a line feed. By a `for` over `split_inclusive` nothing of the calls is proved:
// the check stops at an invariant of such a loop (tried).
pub fn show_texts<F: FnMut(&[u8])>(input: &[u8], end: u8, mut show: F)
    requires { F.IsAlwaysCallable show }
    ensures { (last : F) × Shown F.step (texts end input.now) show last }
{
    let mut left = input;
    while !left.is_empty() {
        let (text, behind) = split_first_text(left, end);
        show(text);
        left = behind;
    }
}

// What cannot be written is left out. Printing promises nothing beyond coming to an end, so neither this nor `fail` has an `ensures`.
pub fn say(rt: &impl Print, text: &[u8]) {
    let _ = rt.write_all(text);
}

// Says on standard error what failed, and why.
pub fn fail(rt: &impl Eprint, what: &str, error: io::Error) {
    let _ = eprintln!(rt; "{what}: {error}");
}
