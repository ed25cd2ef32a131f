// Whether what a call left is what was recorded.
ghost use Rattle.std.specs.Prelude.{◌≡◌, length, min};
ghost use Rattle.recorded.specs.Cursor.{behind, Reads};
ghost use Rattle.recorded.specs.Comparison.{WhenTrue, IsZero, AreaHolds, CountsAre, AreasAre, LeftIs, Compares, lent_lists};
ghost use Rattle.recorded.specs.Records.{number_at, area_start, areas_end};

use crate::reader::Cursor;

fn is_zero(bytes: &[u8]) -> bool
    ensures { WhenTrue (IsZero bytes.now) result }
{
    bytes.iter().all(|byte| *byte == 0)
}

// Whether the area has these bytes, and zeros behind them.
fn holds(area: &[u8], bytes: &[u8]) -> bool
    ensures { WhenTrue (AreaHolds area.now bytes.now) result }
{
    area.strip_prefix(bytes).is_some_and(is_zero)
}

impl Cursor<'_> {
    // The length of an area, and no more than there is.
    pub fn lent(&mut self, most: usize) -> usize
        ensures { Reads (λ l at. min (number_at l at) most) (behind 4) self.old self.new result }
    {
        most.min(self.number() as usize)
    }

    // Whether the counts are those that stand here.
    fn counted(&self, counts: &[u16]) -> bool
        ensures { WhenTrue (CountsAre counts.now self.now.answers.now self.now.at (length counts.now)) result }
    {
        let mut recorded = *self;
        counts.iter().all(|count| *count == recorded.field())
    }

    // Whether the areas, of the lengths that stand at a place, are those recorded one behind the other. An area may have zeros behind what was
    // recorded of it, so `==` does not say it. Both cursors pass each area, equal or not, so it is no `all`, and what a `fold` changes beside its
    // value is not known behind it.
    fn same_areas(&mut self, lengths: &Cursor, areas: [&[u8]; 6]) -> bool
        requires { lengths.now.answers.now ≡ self.old.answers.now }
        ensures { Compares (AreasAre (lent_lists areas.entry) self.old.answers.now lengths.now.at self.old.at 6)
            (λ l at. area_start l at 6) self.old self.new result }
    {
        let mut lengths = *lengths;
        let mut same = true;
        for area in areas {
            let n = lengths.lent(area.len());
            same &= holds(&area[..n], self.bytes());
        }
        same
    }

    // Whether all that the call left is what was recorded behind the lengths.
    pub fn compare(&mut self, word: u64, counts: &[u16], areas: [&[u8]; 6]) -> bool
        ensures { Compares (LeftIs self.old.answers.now self.old.at word counts.now (lent_lists areas.entry))
            areas_end self.old self.new result }
    {
        let lengths = *self;
        self.skip(24);
        let same_word = word == self.number() as u64;
        let same_counts = self.counted(counts);
        self.skip(12);
        self.same_areas(&lengths, areas) & same_word & same_counts
    }
}
