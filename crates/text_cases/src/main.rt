// Runs the scanners of `text` at every offset of each text of standard input, and prints what they answer. A text ends at a zero byte.
// tools/text-cases writes the texts and, from the code points and not from this code, what is to be printed.
#![tactic(auto)]

ghost use Rattle.std.specs.Prelude.{◌≤◌, length};

use characters::utf8::utf8;
use characters::whitespace::matches_whitespace;
use std::fmt;
use streams::{read_full, say, show_texts};
use text::range::{lookahead_is, same_range};
use text::scan::{
    find_ascii_whitespace, find_byte, find_whitespace, last_blank, line_end, parse_nl,
    parse_spaces, parse_ws, skip_ascii_whitespace, trim_end, trim_end_unescaped, trim_start,
};

// A place that was found, or none.
#[derive(Drop)]
struct Place(Option<usize>);

impl fmt::Display for Place {
    fn fmt<W: fmt::Write>(&self, f: &mut fmt::Formatter<W>) -> fmt::Result {
        match self.0 {
            Some(k) => write!(f, "{k}"),
            None => write!(f, "-"),
        }
    }
}

// An offset of a text. Displayed, it is what the scanners answer there.
#[derive(Drop)]
struct Offset<'a> {
    text: &'a [u8],
    at: usize,
    ghost inside: { at ≤ length text.now },
}

impl<'a> Offset<'a> {
    // What stands there.
    fn skips<W: fmt::Write>(&self, f: &mut fmt::Formatter<W>) -> fmt::Result {
        let white = u8::from(matches_whitespace(self.text, self.at));
        let ws = parse_ws(self.text, self.at);
        let nl = parse_nl(self.text, self.at);
        let spaces = parse_spaces(self.text, self.at);
        let end = line_end(self.text, self.at);
        write!(f, " {white} {ws} {nl} {spaces} {end}")
    }

    // What follows, up to the end of the text.
    fn finds<W: fmt::Write>(&self, f: &mut fmt::Formatter<W>) -> fmt::Result {
        let e = self.text.len();
        let whitespace = find_whitespace(self.text, self.at, e);
        let skipped = skip_ascii_whitespace(self.text, self.at, e);
        let ascii = find_ascii_whitespace(self.text, self.at, e);
        let byte = find_byte(self.text, self.at, e, b'<');
        write!(f, " {whitespace} {skipped} {ascii} {byte}")
    }

    // The text from there on, trimmed, and the text up to there.
    fn trims<W: fmt::Write>(&self, f: &mut fmt::Formatter<W>) -> fmt::Result {
        let e = self.text.len();
        let start = trim_start(self.text, self.at, e);
        let end = trim_end(self.text, self.at, e);
        let unescaped = trim_end_unescaped(self.text, 0, self.at);
        let blank = Place(last_blank(self.text, 0, self.at));
        write!(f, " {start} {end} {unescaped} {blank}")
    }

    // What stands there or up to there, and whether that is well formed.
    fn words<W: fmt::Write>(&self, f: &mut fmt::Formatter<W>) -> fmt::Result {
        let ahead = Place(lookahead_is(self.text, b"%%", self.at));
        let same = u8::from(same_range(self.text, 0, self.at, b"%x", 0, 2));
        let formed = u8::from(utf8(&self.text[..self.at]));
        write!(f, " {ahead} {same} {formed}")
    }
}

impl<'a> fmt::Display for Offset<'a> {
    fn fmt<W: fmt::Write>(&self, f: &mut fmt::Formatter<W>) -> fmt::Result {
        write!(f, "{}", self.at)?;
        self.skips(f)?;
        self.finds(f)?;
        self.trims(f)?;
        self.words(f)
    }
}

// What cannot be written is left out.
fn show(rt: &impl Print, s: &[u8]) {
    say(rt, b"text\n");
    if !utf8(s) {
        say(rt, b"not text\n");
        return;
    }
    for i in 0..=s.len() {
        let offset = Offset { text: s, at: i };
        let _ = println!(rt; "{offset}");
    }
}

// Each program has a `main` of its own.
fn main(rt: HostRuntime) {
    let mut buffer = [0u8; 4096];
    let texts = read_full(&mut rt.stdin(), &mut buffer);
    show_texts(texts, 0, |text| show(&rt, text));
}
