// Scanners: each walks once, forward or backward, and answers where it stops. Where it finds nothing that is the end, as in the definitions, and its
// callers go on from there, or compare it with the end as the definitions do.
// It takes a text and places in it: a part of the text would move each place that the definitions speak of. The places differ from call to call, so
// what is asked of them stands at each and in no struct.
// A `while` goes by blocks, or by steps that the text gives, and hands out where it came to, which a `for` by steps does not.
ghost use Rattle.std.specs.Prelude.{◌≡◌, cond, ◌+◌, ◌-◌, ◌≤◌, ◌<◌, eqb, length};
ghost use Rattle.characters.specs.Class.{is_blank};
ghost use Rattle.characters.specs.Shortcuts.{RulesOut, Tells};
ghost use Rattle.characters.specs.Walk.{Between, any};
ghost use Rattle.characters.specs.Whitespace.{byte, at_line_end};
ghost use Rattle.text.specs.Scan.{skip_whitespace, skip_line_ends, skip_blanks, find_line_end, line_end, find_whitespace, skip_ascii_whitespace};
ghost use Rattle.text.specs.Scan.{find_ascii_whitespace, find_byte, last_blank, trim_start, trim_end, backslashes_before, trim_end_unescaped};

use characters::class::{
    is_ascii_whitespace, is_blank, may_be_blank, may_be_whitespace, may_end_line,
};
use characters::walk::{any_of, find, find_last, skip};
use characters::whitespace::{at_line_end, line_end_len, matches_whitespace, whitespace_len};

// How many bytes are looked at together.
const BLOCK: usize = 16;

// How many are looked at together first in the search for the last blank.
const WIDE_BLOCK: usize = 64;

// Past the whitespace at i.
pub fn parse_ws(s: &[u8], i: usize) -> usize
    requires { i ≤ length s.now }
    ensures { Between i (length s.now) (skip_whitespace s.now i) result }
{
    skip(i, s.len(), |k| whitespace_len(s, k))
}

// Past the line ends at i.
pub fn parse_nl(s: &[u8], i: usize) -> usize
    requires { i ≤ length s.now }
    ensures { Between i (length s.now) (skip_line_ends s.now i) result }
{
    skip(i, s.len(), |k| line_end_len(s, k))
}

// Past the blanks at i.
#[tactic(auto, using(characters::proofs::Asking::finds_first))]
pub fn parse_spaces(s: &[u8], i: usize) -> usize
    requires { i ≤ length s.now }
    ensures { Between i (length s.now) (skip_blanks s.now i) result }
{
    find(i, s.len(), |k| !is_blank(s[k]))
}

// The first line end from i to before e, or e. Most bytes start none.
#[tactic(auto, using(characters::proofs::Asking::finds_first, crate::proofs::Blocks::may_end))]
fn find_line_end(s: &[u8], i: usize, e: usize) -> usize
    requires { (i ≤ e) × (e ≤ length s.now) }
    ensures { Between i e (find_line_end s.now i e) result }
{
    find(i, e, |k| may_end_line(s[k]) && at_line_end(s, k))
}

// Whether one of the 16 bytes from i on may start a line end.
#[tactic(auto, using(characters::proofs::Asking::asks_rules_out, characters::proofs::Spaces::end_may_start))]
fn block_may_end_line(s: &[u8], i: usize) -> bool
    requires { i + 16 ≤ length s.now }
    ensures { RulesOut (any (λ j. at_line_end s.now (i + j)) 16) result }
{
    any_of(BLOCK, |j| may_end_line(s[i + j]))
}

// Past the blocks from i on in which no byte may start a line end. It is a loop of its own: within that of `line_end` a block took 13 instructions,
// here 9.
#[tactic(auto, using(crate::proofs::Blocks::passing_blocks))]
fn past_endless(s: &[u8], i: usize) -> usize
    requires { i ≤ length s.now }
    ensures { (i ≤ result) × (result ≤ length s.now) × (line_end s.now i ≡ line_end s.now result) }
{
    let mut k = i;
    while k + BLOCK <= s.len() {
        if block_may_end_line(s, k) {
            return k;
        }
        k += BLOCK;
    }
    k
}

// Where the line ends that i stands in. Blocks without a candidate are passed at once.
#[tactic(auto, using(crate::proofs::Blocks::passing_blocks))]
pub fn line_end(s: &[u8], i: usize) -> usize
    requires { i ≤ length s.now }
    ensures { Between i (length s.now) (line_end s.now i) result }
{
    let mut k = past_endless(s, i);
    while k + BLOCK <= s.len() {
        let next = k + BLOCK;
        let end = find_line_end(s, k, next);
        if end < next {
            return end;
        }
        k = past_endless(s, next);
    }
    find_line_end(s, k, s.len())
}

// The first whitespace character from i to before e, or e.
#[tactic(auto, using(characters::proofs::Asking::finds_first))]
pub fn find_whitespace(s: &[u8], i: usize, e: usize) -> usize
    requires { (i ≤ e) × (e ≤ length s.now) }
    ensures { Between i e (find_whitespace s.now i e) result }
{
    find(i, e, |k| matches_whitespace(s, k))
}

#[tactic(auto, using(characters::proofs::Asking::finds_first))]
pub fn skip_ascii_whitespace(s: &[u8], i: usize, e: usize) -> usize
    requires { (i ≤ e) × (e ≤ length s.now) }
    ensures { Between i e (skip_ascii_whitespace s.now i e) result }
{
    find(i, e, |k| !is_ascii_whitespace(s[k]))
}

#[tactic(auto, using(characters::proofs::Asking::finds_first))]
pub fn find_ascii_whitespace(s: &[u8], i: usize, e: usize) -> usize
    requires { (i ≤ e) × (e ≤ length s.now) }
    ensures { Between i e (find_ascii_whitespace s.now i e) result }
{
    find(i, e, |k| is_ascii_whitespace(s[k]))
}

#[tactic(auto, using(characters::proofs::Asking::finds_first))]
pub fn find_byte(s: &[u8], i: usize, e: usize, b: u8) -> usize
    requires { (i ≤ e) × (e ≤ length s.now) }
    ensures { Between i e (find_byte s.now i e b) result }
{
    find(i, e, |k| s[k] == b)
}

// Whether one of the n bytes from i on may be a blank.
#[tactic(auto, using(characters::proofs::Asking::asks_rules_out))]
fn may_have_blank(s: &[u8], i: usize, n: usize) -> bool
    requires { i + n ≤ length s.now }
    ensures { RulesOut (any (λ j. is_blank (byte s.now (i + j))) n) result }
{
    any_of(n, |j| may_be_blank(s[i + j]))
}

// Down from e past the blocks of WIDTH bytes in which no blank stands. That i is within the text, and a block short, keeps i + WIDTH in range.
#[tactic(auto, using(crate::proofs::Blocks::passing_blankless))]
fn past_blankless<const WIDTH: usize>(s: &[u8], i: usize, e: usize) -> usize
    requires { ((0 < WIDTH) × (WIDTH ≤ 64)) × ((i ≤ e) × (e ≤ length s.now)) }
    ensures { (i ≤ result) × (result ≤ e) × (last_blank s.now i e ≡ last_blank s.now i result) }
{
    let mut k = e;
    while i + WIDTH <= k {
        let next = k - WIDTH;
        if may_have_blank(s, next, WIDTH) {
            return k;
        }
        k = next;
    }
    k
}

// The last space or tab from i to before e. Blocks without a candidate are passed at once, wide ones first.
pub fn last_blank(s: &[u8], i: usize, e: usize) -> Option<usize>
    requires { e ≤ length s.now }
    ensures { result ≡ last_blank s.now i e }
{
    if e <= i {
        return None;
    }
    let k = past_blankless::<BLOCK>(s, i, past_blankless::<WIDE_BLOCK>(s, i, e));
    find_last(i, k, |j| is_blank(s[j]))
}

pub fn trim_start(s: &[u8], i: usize, e: usize) -> usize
    requires { (i ≤ e) × (e ≤ length s.now) }
    ensures { Between i e (trim_start s.now i e) result }
{
    parse_ws(s, i).min(e)
}

// Whether the text from i to e ends with a byte that no whitespace character has, as most do: then nothing is trimmed.
#[tactic(auto, using(crate::proofs::Trims::ending_plainly))]
fn ends_plainly(s: &[u8], i: usize, e: usize) -> bool
    requires { e ≤ length s.now }
    ensures { Tells (eqb (trim_end s.now i e) e) result }
{
    if e <= i {
        return false;
    }
    !may_be_whitespace(s[e - 1])
}

// Each byte is passed once: whitespace goes from k to w, and what stands at w is none, so the end is past w.
#[tactic(auto, using(crate::proofs::Trims::trimming))]
fn trim_end_by_characters(s: &[u8], i: usize, e: usize) -> usize
    requires { (i ≤ e) × (e ≤ length s.now) }
    ensures { Between i e (trim_end s.now i e) result }
{
    let mut k = i;
    while k < e {
        let w = parse_ws(s, k);
        if e <= w {
            return k;
        }
        k = w + 1;
    }
    k
}

// The walk is a function of its own, so that the test of the last byte is inlined where this is called.
pub fn trim_end(s: &[u8], i: usize, e: usize) -> usize
    requires { (i ≤ e) × (e ≤ length s.now) }
    ensures { Between i e (trim_end s.now i e) result }
{
    if ends_plainly(s, i, e) {
        return e;
    }
    trim_end_by_characters(s, i, e)
}

// How many backslashes stand in front of u, from i on.
fn backslashes_before(s: &[u8], i: usize, u: usize) -> usize
    requires { (i ≤ u) × (u ≤ length s.now) }
    ensures { result ≡ backslashes_before s.now i u }
{
    match find_last(i, u, |k| s[k] != b'\\') {
        Some(q) => u - (q + 1),
        None => u - i,
    }
}

// Where a pattern from i to e ends without its trailing whitespace, of which an escaped character stays.
#[tactic(auto, using(crate::proofs::Trims::trimming_escaped))]
pub fn trim_end_unescaped(s: &[u8], i: usize, e: usize) -> usize
    requires { (i ≤ e) × (e ≤ length s.now) }
    ensures { Between i (length s.now) (trim_end_unescaped s.now i e) result }
{
    if ends_plainly(s, i, e) {
        return e;
    }
    let u = trim_end_by_characters(s, i, e);
    if u == e {
        return e;
    }
    if backslashes_before(s, i, u) % 2 == 1 {
        return u + whitespace_len(s, u);
    }
    u
}
