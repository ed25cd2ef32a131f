// Lines that are skipped between what is read, and where a section ends (01, Declarations and Rules).
// A place stands beside the source that it is in, for the definitions speak of places in the whole source.
#![tactic(auto)]

pub mod options; // what the caller chooses
pub mod reader; // the source and a place in it

ghost use Rattle.std.specs.Prelude.{◌≡◌, ℕ, true, ◌+◌, ◌≤◌, length, is_some};
ghost use Rattle.characters.specs.Walk.{Between};
ghost use Rattle.text.specs.Range.{lookahead_is};
ghost use Rattle.text.specs.Scan.{line_end};
ghost use Rattle.section.specs.Section.{PastComments, slashes, is_comment, to_declaration, to_rule, in_section, has_routines};

use crate::options::Options;
use characters::class::is_line_end;
use characters::whitespace::byte_at;
use text::range::lookahead_is;
use text::scan::{line_end, parse_nl, parse_ws};

// A lex file that is parsed: its bytes, what the caller chooses, and the engine's verdicts on its rules. A place in it fits 2 bytes.
#[derive(Clone, Copy)]
pub struct LexFile<'a> {
    pub source: &'a [u8],
    pub options: Options,
    pub verdicts: &'a [u8],
    ghost short: { length source.now ≤ 65535 },
}

// Whether a line that flag 1 skips starts at i. It takes that flag alone: handed the `Options`, a file of short comment lines took a quarter more
// instructions.
#[tactic(auto, unfolding(crate::specs::Section::is_comment))]
fn is_comment(src: &[u8], comments: bool, i: usize) -> bool
    requires { i ≤ length src.now }
    ensures { result ≡ is_comment src.now comments i }
{
    comments && lookahead_is(src, b"//", i).is_some()
}

// Where the line ends that starts with `//` at i. The slashes are no line end, and an empty comment is settled by the byte behind them.
#[tactic(auto, using(crate::proofs::Lines::ending))]
fn comment_end(src: &[u8], i: usize) -> usize
    requires { is_some (lookahead_is src.now slashes i) ≡ true }
    ensures { Between (i + 2) (length src.now) (line_end src.now i) result }
{
    let k = i + 2;
    if is_line_end(byte_at(src, k)) {
        return k;
    }
    line_end(src, k)
}

// Past what `skip` passes and lines that flag 1 skips, one after the other, each as far as it goes: no index is counted.
fn past_comments<F: Fn(usize) -> usize>(src: &[u8], options: Options, i: usize, skip: F) -> usize
    requires inside { i ≤ length src.now }
    requires callable { (k : ℕ) → k ≤ length src.now → F.pre skip k }
    requires onward { (k n : ℕ) → k ≤ length src.now → F.post skip k n → (k ≤ n) × (n ≤ length src.now) }
    ensures { PastComments src.now options (F.post skip) i result }
{
    let mut k = skip(i);
    while is_comment(src, options.comments, k) {
        k = skip(comment_end(src, k));
    }
    k
}

// To a declaration or the section's end.
fn to_declaration(src: &[u8], options: Options, i: usize) -> usize
    requires { i ≤ length src.now }
    ensures { Between i (length src.now) (to_declaration src.now options i) result }
{
    past_comments(src, options, i, |k| parse_ws(src, k))
}

// To a rule's line or the section's end. This pair, and those of the reader, differ in the scanner alone, which one function would take from its callers.
fn to_rule(src: &[u8], options: Options, i: usize) -> usize
    requires { i ≤ length src.now }
    ensures { Between i (length src.now) (to_rule src.now options i) result }
{
    past_comments(src, options, i, |k| parse_nl(src, k))
}

// Whether a section goes on at i.
#[tactic(auto, unfolding(crate::specs::Section::in_section))]
pub fn in_section(src: &[u8], i: usize) -> bool
    requires { i ≤ length src.now }
    ensures { result ≡ in_section src.now i }
{
    i != src.len() && lookahead_is(src, b"%%", i).is_none()
}

// Whether a `%%` stands at i with more than whitespace behind it.
#[tactic(auto, unfolding(crate::specs::Section::has_routines, text::specs::Range::lookahead_is))]
pub fn has_routines(src: &[u8], i: usize) -> bool
    requires { i ≤ length src.now }
    ensures { result ≡ has_routines src.now i }
{
    let Some(j) = lookahead_is(src, b"%%", i) else {
        return false;
    };
    parse_ws(src, j) != src.len()
}
