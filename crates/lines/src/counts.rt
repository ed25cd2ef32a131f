// What is counted in a block. Line ends are counted and found in a whole block by one comparison of all its bytes. The other counts look at every byte,
// so that the compiler can take many at once, and are one byte wide.
ghost use Rattle.std.specs.Prelude.{◌≡◌, ◌≤◌, ◌<◌, ◌+◌, ◌-◌, not, eqb, cond, length};
ghost use Rattle.answers.specs.Numbers.{most_source};
ghost use Rattle.characters.specs.Utf8.{is_continuation, at_edge};
ghost use Rattle.characters.specs.Walk.{last, count};
ghost use Rattle.lines.specs.Lines.{line_feed, ends_line, behind_end};
ghost use Rattle.lines.specs.Places.{ShortRange, Counts, LastEnd, end_bits};

use crate::places::BLOCK;
use crate::{Byte, ColNum, LineByte};
use characters::utf8::is_continuation;
use std::simd::prelude::*;

// A line ends at it only.
const LINE_FEED: u8 = 0x0a;

fn ends_line(b: u8) -> bool
    ensures { result ≡ eqb b line_feed }
{
    b == LINE_FEED
}

// How many bytes of a block come up to the end of a line at byte k, with that byte; 0 where no line ends there.
fn up_to_end(b: u8, k: u8) -> u8
    requires { k < 64 }
    ensures { result ≡ cond (eqb b line_feed) (k + 1) 0 }
{
    if ends_line(b) { k + 1 } else { 0 }
}

fn starts_character(b: u8) -> bool
    ensures { result ≡ not (is_continuation b) }
{
    !is_continuation(b)
}

// A source that is not too long.
#[derive(Clone, Copy)]
pub struct Source<'a> {
    pub bytes: &'a [u8],
    ghost short: { length bytes.now ≤ most_source },
}

// At most 64 bytes of a source, so that what is counted fits one byte.
#[derive(Clone, Copy)]
pub struct Block<'a> {
    pub source: Source<'a>,
    pub from: Byte,
    pub to: Byte,
    ghost range: { ShortRange source.bytes.now from.0 to.0 },
}

impl Block<'_> {
    // How many bytes pass a test.
    fn count<F: Fn(u8) -> bool>(&self, test: F) -> u8
        requires { F.IsAlwaysCallable test }
        ensures { Counts (F.post test) self.now.source.bytes.now self.now.from.0 self.now.to.0 result }
    {
        let bytes = &self.source.bytes[self.from.0..self.to.0];
        let mut n = 0;
        for b in bytes {
            n += u8::from(test(*b));
        }
        n
    }

    // Which bytes of a whole block end a line: a bit each, the first byte the lowest.
    fn end_bits(&self) -> u64
        requires { self.now.to.0 ≡ self.now.from.0 + 64 }
        ensures { result ≡ end_bits self.now.source.bytes.now self.now.from.0 }
    {
        u8x64::from_slice(&self.source.bytes[self.from.0..])
            .simd_eq(u8x64::splat(LINE_FEED))
            .to_bitmask()
    }

    // How many lines end there.
    pub fn line_ends(&self) -> u8
        ensures { result ≡ count (ends_line self.now.source.bytes.now) self.now.from.0 self.now.to.0 }
    {
        if self.to.0 - self.from.0 == BLOCK {
            return self.end_bits().count_ones() as u8;
        }
        self.count(ends_line)
    }

    // How many characters start there.
    pub fn characters(&self) -> u8
        ensures { result ≡ count (at_edge self.now.source.bytes.now) self.now.from.0 self.now.to.0 }
    {
        self.count(starts_character)
    }

    // How many of its bytes come up to the last line end, with it; 0 where no line ends there. In a short block too every byte is looked at: by
    // `find_last` a search from place to offset took up to 1.44 times as many instructions as before, on short lines.
    #[tactic(auto, using(crate::proofs::Counting::seeking_last_end))]
    fn up_to_last_end(&self) -> u8
        ensures { LastEnd self.now.source.bytes.now self.now.from.0 (self.now.to.0 - self.now.from.0) result }
    {
        if self.to.0 - self.from.0 == BLOCK {
            let bits = self.end_bits();
            return if bits == 0 { 0 } else { bits.ilog2() as u8 + 1 };
        }
        let bytes = &self.source.bytes[self.from.0..self.to.0];
        let mut passed = 0;
        for k in 0..bytes.len() {
            passed = up_to_end(bytes[k], k as u8).max(passed);
        }
        passed
    }

    // Where the line starts that follows the last line end there; 0 where no line ends there.
    #[tactic(auto, using(crate::proofs::Counting::seeking_line_start))]
    pub fn line_byte(&self) -> LineByte
        ensures { result.0 ≡ behind_end (last (ends_line self.now.source.bytes.now) self.now.from.0 self.now.to.0) }
    {
        let passed = self.up_to_last_end();
        if passed == 0 {
            return LineByte(0);
        }
        LineByte(self.from.0 + usize::from(passed))
    }

    // The column of the block's end, where its line starts with the block.
    pub fn col_num(&self) -> ColNum
        ensures { result.0 ≡ 1 + count (at_edge self.now.source.bytes.now) self.now.from.0 self.now.to.0 }
    {
        ColNum(1 + u64::from(self.characters()))
    }
}
