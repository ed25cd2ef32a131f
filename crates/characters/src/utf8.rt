// Well-formed UTF-8: the rows of the Unicode standard's table 3-7, a walk from character to character, and two quick tests in front of it. As in the
// definitions, the rows take bytes one by one, and what walks takes the text and places in it, for a part of the text would move each place.
ghost use Rattle.std.specs.Prelude.{◌≡◌, ◌+◌, ◌≤◌, leb, length};
ghost use Rattle.characters.specs.Class.{within};
ghost use Rattle.characters.specs.Walk.{any};
ghost use Rattle.characters.specs.Shortcuts.{RulesOut, Tells, out_of_place, out_of_place_behind, starts_out_of_place, ends_out_of_place};
ghost use Rattle.characters.specs.Whitespace.{Width, byte};
ghost use Rattle.characters.specs.Utf8;
ghost use Rattle.characters.specs.Utf8.{is_continuation, is_edge, two_bytes, three_bytes, four_bytes, char_of, char_len};

use crate::walk::{any_of, skip};
use crate::whitespace::byte_at;

// How many positions are settled together.
const BLOCK: usize = 64;

// The bytes that a block goes by, 67, and up to whole groups of 16.
const BLOCK_BYTES: usize = 80;

// Whether b is from lo to hi.
fn within(lo: u8, hi: u8, b: u8) -> bool
    ensures { result ≡ within lo hi b }
{
    (lo <= b) & (b <= hi)
}

pub fn is_continuation(b: u8) -> bool
    ensures { result ≡ is_continuation b }
{
    within(0x80, 0xbf, b)
}

// Whether b is an edge of the text s: no character goes on there.
pub fn is_edge(s: &[u8], b: usize) -> bool
    ensures { result ≡ is_edge s.now b }
{
    (b <= s.len()) & !is_continuation(byte_at(s, b))
}

fn two_bytes(a: u8, b: u8) -> bool
    ensures { result ≡ two_bytes a b }
{
    within(0xc2, 0xdf, a) & is_continuation(b)
}

fn three_bytes(a: u8, b: u8, c: u8) -> bool
    ensures { result ≡ three_bytes a b c }
{
    let both = is_continuation(b) & is_continuation(c);
    ((a == 0xe0) & (within(0xa0, 0xbf, b) & is_continuation(c)))
        | ((within(0xe1, 0xec, a) & both)
            | (((a == 0xed) & (within(0x80, 0x9f, b) & is_continuation(c)))
                | (within(0xee, 0xef, a) & both)))
}

fn four_bytes(a: u8, b: u8, c: u8, d: u8) -> bool
    ensures { result ≡ four_bytes a b c d }
{
    let last = is_continuation(c) & is_continuation(d);
    ((a == 0xf0) & (within(0x90, 0xbf, b) & last))
        | ((within(0xf1, 0xf3, a) & (is_continuation(b) & last))
            | ((a == 0xf4) & (within(0x80, 0x8f, b) & last)))
}

// Of the bytes a b c d, how many make a character, or 0. As in the definitions, 0 is none: a walk adds the width, and takes no Option apart.
#[tactic(auto, unfolding(crate::specs::Utf8::char_of))]
fn char_of(a: u8, b: u8, c: u8, d: u8) -> usize
    ensures { result ≡ char_of a b c d }
{
    if a < 0x80 {
        return 1;
    }
    if two_bytes(a, b) {
        return 2;
    }
    if three_bytes(a, b, c) {
        return 3;
    }
    if four_bytes(a, b, c, d) {
        return 4;
    }
    0
}

// How many bytes the character has that starts at k and ends within the text, or 0.
#[tactic(auto, using(crate::proofs::Chars::measuring_chars))]
pub fn char_len(s: &[u8], k: usize) -> usize
    requires { k ≤ length s.now }
    ensures { Width s.now k (char_len s.now k) result }
{
    let n = char_of(
        byte_at(s, k),
        byte_at(s, k + 1),
        byte_at(s, k + 2),
        byte_at(s, k + 3),
    );
    if n <= s.len() - k {
        return n;
    }
    0
}

// Whether one of the n bytes from k on is not ASCII. It looks at all of them whatever it finds, so that the compiler can take many at once.
#[tactic(auto, using(crate::proofs::Asking::asks_rules_out, crate::proofs::Runs::answer_rules_out))]
fn has_above_ascii(s: &[u8], k: usize, n: usize) -> bool
    requires { k + n ≤ length s.now }
    ensures { RulesOut (any (λ j. leb 0x80 (byte s.now (k + j))) n) result }
{
    any_of(n, |j| 0x80 <= s[k + j])
}

// Whether every byte is ASCII, and so a character by itself.
fn is_ascii(s: &[u8]) -> bool
    ensures { Tells (Utf8.utf8 s.now) result }
{
    !has_above_ascii(s, 0, s.len())
}

// Whether no well-formed text has d behind the bytes a b c.
fn is_out_of_place(a: u8, b: u8, c: u8, d: u8) -> bool
    ensures { result ≡ out_of_place a b c d }
{
    let goes_on = (0xc0 <= c) | ((0xe0 <= b) | (0xf0 <= a));
    let inside = is_continuation(d);
    let below_a0 = within(0x80, 0x9f, d);
    let below_90 = within(0x80, 0x8f, d);
    ((goes_on & !inside) | (!goes_on & inside))
        | ((within(0xc0, 0xc1, d) | (0xf5 <= d))
            | ((((c == 0xe0) & below_a0) | ((c == 0xed) & !below_a0))
                | (((c == 0xf0) & below_90) | ((c == 0xf4) & !below_90))))
}

// Whether one of the first three bytes a b c of a text is out of place. One function for this and the
// next would take six bytes, of which three are 0 at each call, and say no more.
#[tactic(auto, unfolding(crate::specs::Shortcuts::starts_out_of_place))]
fn starts_out_of_place(a: u8, b: u8, c: u8) -> bool
    ensures { result ≡ starts_out_of_place a b c }
{
    is_out_of_place(0, 0, 0, a) | (is_out_of_place(0, 0, a, b) | is_out_of_place(0, a, b, c))
}

// Whether a text whose last three bytes are a b c ends inside a character.
#[tactic(auto, unfolding(crate::specs::Shortcuts::ends_out_of_place))]
fn ends_out_of_place(a: u8, b: u8, c: u8) -> bool
    ensures { result ≡ ends_out_of_place a b c }
{
    is_out_of_place(a, b, c, 0) | (is_out_of_place(b, c, 0, 0) | is_out_of_place(c, 0, 0, 0))
}

// Whether one of the n bytes behind the three from k on is out of place. It looks at all of them too.
#[tactic(auto, using(crate::proofs::Asking::asks_rules_out, crate::proofs::Runs::answer_rules_out))]
fn has_out_of_place(s: &[u8], k: usize, n: usize) -> bool
    requires { k + n + 3 ≤ length s.now }
    ensures { RulesOut (any (λ j. out_of_place_behind s.now (k + j)) n) result }
{
    any_of(n, |j| {
        let i = k + j;
        is_out_of_place(s[i], s[i + 1], s[i + 2], s[i + 3])
    })
}

// The same of a block, which is settled where the bytes that it goes by are ASCII.
fn block_out_of_place(s: &[u8], k: usize) -> bool
    requires { k + 80 ≤ length s.now }
    ensures { RulesOut (any (λ j. out_of_place_behind s.now (k + j)) 64) result }
{
    if !has_above_ascii(s, k, BLOCK_BYTES) {
        return false;
    }
    has_out_of_place(s, k, BLOCK)
}

// Whether one of the n bytes from position 3 on is out of place, with a way out at the first block that has one. It is a `while`, since the bytes
// behind the last whole block are asked from where it ends, and a `for` by steps would not hand that out.
#[tactic(auto, using(crate::proofs::InPlace::passing_blocks))]
fn is_any_out_of_place(s: &[u8], n: usize) -> bool
    requires { n + 3 ≤ length s.now }
    ensures { RulesOut (any (out_of_place_behind s.now) n) result }
{
    let mut k = 0;
    while BLOCK_BYTES <= n - k {
        if block_out_of_place(s, k) {
            return true;
        }
        k += BLOCK;
    }
    has_out_of_place(s, k, n - k)
}

// Whether every byte is in place. Of a text of fewer than three bytes nothing is said. The last three stand by their place, and not in a slice
// pattern, since the bytes before them are asked by that place too.
fn is_in_place(s: &[u8]) -> bool
    ensures { Tells (Utf8.utf8 s.now) result }
{
    if s.len() < 3 {
        return false;
    }
    let n = s.len() - 3;
    let starts = starts_out_of_place(s[0], s[1], s[2]);
    let ends = ends_out_of_place(s[n], s[n + 1], s[n + 2]);
    !(starts | (is_any_out_of_place(s, n) | ends))
}

// Whether s is well formed: by the quick tests where one passes, otherwise from character to character. The library's `from_utf8` takes up to 14
// times as long on well-formed text of mixed characters (docs/SPEED.md, UTF-8).
pub fn utf8(s: &[u8]) -> bool
    ensures { result ≡ Utf8.utf8 s.now }
{
    if is_ascii(s) {
        return true;
    }
    if is_in_place(s) {
        return true;
    }
    skip(0, s.len(), |k| char_len(s, k)) == s.len()
}
