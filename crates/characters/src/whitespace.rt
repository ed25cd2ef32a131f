// Whitespace characters and line ends at a byte offset: characters of 1, 2 or 3 bytes (01, Characters). As in the definitions, the functions take a
// text and a place in it, for a part of the text would move the place, and the bytes a, b and c of a character one by one.
ghost use Rattle.std.specs.Prelude.{◌≡◌, false, ◌≤◌, length};
ghost use Rattle.characters.specs.Class.{is_line_end, is_whitespace_byte};
ghost use Rattle.characters.specs.Whitespace.{Width, byte, is_separator, whitespace_of, line_end_of, whitespace_len, line_end_len, at_whitespace, at_line_end};

use crate::class::{is_line_end, is_whitespace_byte, may_be_whitespace, may_end_line};

// The byte at i, and 0 past the end.
pub fn byte_at(s: &[u8], i: usize) -> u8
    ensures { result ≡ byte s.now i }
{
    if i < s.len() { s[i] } else { 0 }
}

// Whether the bytes are a line end of three bytes.
fn is_separator(a: u8, b: u8, c: u8) -> bool
    ensures { result ≡ is_separator a b c }
{
    (a == 0xe2) & ((b == 0x80) & ((c == 0xa8) | (c == 0xa9)))
}

// Of the bytes a b c, of which a is none by itself, how many the whitespace character has that they start with. As in the definitions, 0 is none: a
// walk adds the width, and takes no Option apart.
#[tactic(auto, unfolding(crate::specs::Whitespace::whitespace_of))]
fn wide_whitespace_of(a: u8, b: u8, c: u8) -> usize
    requires { is_whitespace_byte a ≡ false }
    ensures { result ≡ whitespace_of a b c }
{
    if (a == 0xc2) & (b == 0x85) {
        return 2;
    }
    let mark = (a == 0xe2) & ((b == 0x80) & ((c == 0x8e) | (c == 0x8f)));
    if mark | is_separator(a, b, c) {
        return 3;
    }
    0
}

#[tactic(auto, unfolding(crate::specs::Whitespace::line_end_of))]
fn wide_line_end_of(a: u8, b: u8, c: u8) -> usize
    requires { is_line_end a ≡ false }
    ensures { result ≡ line_end_of a b c }
{
    if is_separator(a, b, c) {
        return 3;
    }
    0
}

// How many bytes the whitespace character has that starts at i, or 0. Most bytes are settled without their classes and their neighbours.
#[tactic(auto, using(crate::proofs::Spaces::measuring_white))]
pub fn whitespace_len(s: &[u8], i: usize) -> usize
    requires { i ≤ length s.now }
    ensures { Width s.now i (whitespace_len s.now i) result }
{
    let a = byte_at(s, i);
    if !may_be_whitespace(a) {
        return 0;
    }
    if is_whitespace_byte(a) {
        return 1;
    }
    wide_whitespace_of(a, byte_at(s, i + 1), byte_at(s, i + 2))
}

// The same of a line end. One function for both would take its two tests and the measure behind them as parameters.
#[tactic(auto, using(crate::proofs::Spaces::measuring_ends))]
pub fn line_end_len(s: &[u8], i: usize) -> usize
    requires { i ≤ length s.now }
    ensures { Width s.now i (line_end_len s.now i) result }
{
    let a = byte_at(s, i);
    if !may_end_line(a) {
        return 0;
    }
    if is_line_end(a) {
        return 1;
    }
    wide_line_end_of(a, byte_at(s, i + 1), byte_at(s, i + 2))
}

// Whether a whitespace character starts at i.
pub fn matches_whitespace(s: &[u8], i: usize) -> bool
    requires { i ≤ length s.now }
    ensures { result ≡ at_whitespace s.now i }
{
    0 < whitespace_len(s, i)
}

pub fn at_line_end(s: &[u8], i: usize) -> bool
    requires { i ≤ length s.now }
    ensures { result ≡ at_line_end s.now i }
{
    0 < line_end_len(s, i)
}
