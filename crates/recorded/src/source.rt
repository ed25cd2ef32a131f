// The source of a record: pieces, each as many times as it stands.
ghost use Rattle.output.specs.Text.{Appends};
ghost use Rattle.recorded.specs.Records.{repeated, source_at, source_end};
ghost use Rattle.recorded.specs.Cursor.{GoesTo};

use crate::reader::Cursor;
use output::Text;

// Of a piece without bytes nothing is appended, however often it stands: a damaged file may have one some billion times.
fn push_times(text: &mut Text, piece: &[u8], times: u32)
    ensures { Appends text.old text.new (repeated times piece.now) }
{
    if piece.is_empty() {
        return;
    }
    for _ in 0..times {
        text.push_text(piece);
    }
}

impl Cursor<'_> {
    // The pieces of the source one behind the other, as far as the text has room.
    pub fn source(&mut self, text: &mut Text)
        ensures reads { Appends text.old text.new (source_at self.old.answers.now self.old.at) }
        ensures goes { GoesTo source_end self.old self.new }
    {
        for _ in 0..self.number() {
            let times = self.number();
            push_times(text, self.bytes(), times);
        }
    }
}
