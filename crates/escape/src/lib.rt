// A pattern's escapes: whether one of them is rewritten, and the rewritten text, appended to the text area (01, Rules).
// Functions take the source and places in it, as the definitions do: a part of the source would move each place. The area that is lent stays beside
// its count: in a struct of both there would be a parameter less and, at each function, a promise more that the same bytes are lent.
#![tactic(auto)]

ghost use Rattle.std.specs.Prelude.{◌≡◌, [], ◌+◌, ◌≤◌, ◌<◌, length};
ghost use Rattle.characters.specs.Class.{ClassTable};
ghost use Rattle.characters.specs.Walk.{Between};
ghost use Rattle.characters.specs.Whitespace.{byte};
ghost use Rattle.area.specs.Areas.{PushedText};
ghost use Rattle.area.specs.Contents.{Held, Grows, append, text_format};
ghost use Rattle.escape.specs.Escape.{char_end, escapes, is_code_letter, is_kept, backspace, escape_from, escaped, is_rewritten, drop_lone, unescaped};
ghost use Rattle.escape.specs.Phrases.{starts_code, next_whole};

use area::{AreaFull, push_text};
use characters::class::{CLASS, is_always_kept_in, is_hex_digit};
use characters::utf8::is_continuation;
use characters::walk::find;
use characters::whitespace::byte_at;
use text::scan::find_byte;

const BACKSLASH: u8 = b'\\';

// Where an escape's backslash stands, and where its character starts and ends.
#[derive(Clone, Copy)]
pub struct Escape {
    pub backslash: usize,
    pub start: usize,
    pub end: usize,
}

// The source up to where a pattern ends, and the table of classes, laid out once for all of its escapes.
#[derive(Clone, Copy)]
struct Pattern<'a> {
    source: &'a [u8],
    end: usize,
    classes: &'a [u8; 256],
    ghost within: { end ≤ length source.now },
    ghost class_table: { ClassTable classes.now },
}

// ---- one escape

// x, u, U: a character by its code.
#[tactic(auto, using(crate::proofs::Kept::keeping))]
fn is_code_letter(b: u8) -> bool
    ensures { result ≡ is_code_letter b }
{
    (b == b'x') | ((b == b'u') | (b == b'U'))
}

// Each test of a place q asks that it lies before the pattern's end, as an index does; a type of such places would have no other use.
impl<'a> Pattern<'a> {
    // Whether a character's code starts at q: a letter, and a hex digit behind it.
    #[tactic(auto, using(crate::proofs::Kept::keeping))]
    fn starts_code(&self, q: usize) -> bool
        requires { q < self.now.end }
        ensures { result ≡ starts_code self.now.source.now self.now.end q }
    {
        if is_code_letter(byte_at(self.source, q)) {
            return (q + 1 < self.end) & is_hex_digit(byte_at(self.source, q + 1));
        }
        false
    }

    // Whether the escape stays whose character starts at q.
    #[tactic(auto, using(crate::proofs::Kept::keeping))]
    fn is_kept(&self, q: usize) -> bool
        requires { q < self.now.end }
        ensures { result ≡ is_kept self.now.source.now self.now.end q }
    {
        if is_always_kept_in(self.classes, byte_at(self.source, q)) {
            return true;
        }
        self.starts_code(q)
    }

    // Where the character ends that starts at q.
    #[tactic(auto, using(characters::proofs::Asking::finds_first))]
    fn char_end(&self, q: usize) -> usize
        requires { q < self.now.end }
        ensures { Between (q + 1) self.now.end (char_end self.now.source.now self.now.end q) result }
    {
        let source = self.source;
        find(q + 1, self.end, |k| !is_continuation(source[k]))
    }

    // The next escape from p on, if it is whole.
    #[tactic(auto, using(crate::proofs::Passed::finding_next))]
    fn next_escape(&self, p: usize) -> Option<Escape>
        requires { p ≤ self.now.end }
        ensures { result ≡ next_whole self.now.source.now self.now.end p }
    {
        let backslash = find_byte(self.source, p, self.end, BACKSLASH);
        let start = backslash + 1;
        if self.end <= start {
            return None;
        }
        let end = self.char_end(start);
        Some(Escape {
            backslash,
            start,
            end,
        })
    }

    // Where the text ends behind the last whole escape, which ends at p: a lone last backslash drops it.
    fn text_end(&self, p: usize) -> usize
        requires p_le_end { p ≤ self.now.end }
        requires none_left { escapes self.now.source.now p self.now.end ≡ [] }
        ensures { Between p self.now.end (drop_lone self.now.source.now self.now.end p) result }
    {
        if p < self.end && self.source[self.end - 1] == BACKSLASH {
            return p;
        }
        self.end
    }
}

// ---- escapes one after the other

// The whole escapes of a pattern from a position on.
#[derive(Drop)]
struct Escapes<'a> {
    pattern: Pattern<'a>,
    at: usize,
    ghost within: { at ≤ pattern.end },
}

impl<'a> Iterator for Escapes<'a> {
    ghost use Rattle.std.specs.Iterator.{YieldsFirst, item_count};
    ghost use Rattle.escape.specs.Escape.{escapes};

    type Item = Escape;

    ghost next_gives = { YieldsFirst (λ s. escapes s.pattern.source.now s.at s.pattern.end) };

    ghost remaining = { item_count (λ s. escapes s.pattern.source.now s.at s.pattern.end) };

    fn next(&mut self) -> Option<Escape> {
        let escape = self.pattern.next_escape(self.at)?;
        self.at = escape.end;
        Some(escape)
    }
}

// Whether an escape of the pattern from i to c does not stay.
fn is_rewritten_from(src: &[u8], i: usize, c: usize) -> bool
    requires { (i ≤ c) × (c ≤ length src.now) }
    ensures { result ≡ is_rewritten src.now i c }
{
    let pattern = Pattern {
        source: src,
        end: c,
        classes: &CLASS,
    };
    let mut escapes = Escapes { pattern, at: i };
    escapes.any(|e| !pattern.is_kept(e.start))
}

// The same. No table is laid out for a pattern without a whole escape.
#[tactic(auto, using(crate::proofs::Passed::asking))]
pub fn is_rewritten(src: &[u8], i: usize, c: usize) -> bool
    requires { (i ≤ c) × (c ≤ length src.now) }
    ensures { result ≡ is_rewritten src.now i c }
{
    let q = find_byte(src, i, c, BACKSLASH);
    if c <= q + 1 {
        return false;
    }
    is_rewritten_from(src, q, c)
}

// ---- the rewritten text

// What `\b` becomes: `\x08` by the option `posix_escapes`, which is the caller's choice of what is written and is handed on to here alone.
#[tactic(auto, unfolding(crate::specs::Escape::backspace))]
fn push_backspace(posix_escapes: bool, area: &mut [u8], n: u16) -> Result<u16, AreaFull>
    ensures { PushedText (backspace posix_escapes) area.old n result area.new }
{
    if posix_escapes {
        return push_text(area, n, b"\\x08");
    }
    push_text(area, n, b"\\b")
}

impl<'a> Pattern<'a> {
    // Where what an escape but `\b` becomes starts: at its backslash if it stays.
    #[tactic(auto, unfolding(crate::specs::Escape::escape_from))]
    fn escape_from(&self, e: Escape) -> usize
        requires { (e.backslash ≤ e.start) × (e.start < self.now.end) }
        ensures { Between e.backslash e.start (escape_from self.now.source.now self.now.end e) result }
    {
        if self.is_kept(e.start) {
            return e.backslash;
        }
        e.start
    }

    // What the escape becomes.
    #[tactic(auto, unfolding(crate::specs::Escape::escaped, text::specs::Range::part))]
    fn push_escape(
        &self,
        posix_escapes: bool,
        e: Escape,
        area: &mut [u8],
        n: u16,
    ) -> Result<u16, AreaFull>
        requires { (e.backslash ≤ e.start) × (e.start < e.end) × (e.end ≤ self.now.end) }
        ensures { PushedText (escaped self.now.source.now posix_escapes self.now.end e) area.old n result area.new }
    {
        if byte_at(self.source, e.start) == b'b' {
            return push_backspace(posix_escapes, area, n);
        }
        push_text(area, n, &self.source[self.escape_from(e)..e.end])
    }
}

// The rewritten text of the pattern from i to c, behind n bytes: the text up to each escape, and what the escape becomes. Where it does not fit,
// the pieces that did are left in the area.
pub fn unescape(
    src: &[u8],
    posix_escapes: bool,
    i: usize,
    c: usize,
    area: &mut [u8],
    n: u16,
) -> Result<u16, AreaFull>
    requires i_le_c { (i ≤ c) × (c ≤ length src.now) }
    requires held { Held text_format area.old n }
    ensures { Grows text_format (append text_format (length area.old) (unescaped src.now posix_escapes i c))
        area.old n result area.new }
{
    let pattern = Pattern {
        source: src,
        end: c,
        classes: &CLASS,
    };
    let mut p = i;
    let mut count = n;
    for e in (Escapes { pattern, at: i }) {
        if p < e.backslash {
            count = push_text(area, count, &src[p..e.backslash])?;
        }
        count = pattern.push_escape(posix_escapes, e, area, count)?;
        p = e.end;
    }
    push_text(area, count, &src[p..pattern.text_end(p)])
}
