// The line and column of an offset, and back (02, 1/13).
ghost use Rattle.std.specs.Prelude.{◌≡◌};
ghost use Rattle.area.specs.Phrases.{before, after};
ghost use Rattle.lines.specs.Lines.{place, line_column_left, line_column_call, offset_at, offset_word};

use lines::call::{line_column, offset_at, write_place};
use lines::{Byte, ColNum, LineNum, Place};
use words::{Word, offset_word};

// Writes the line and column of an offset of a source, both from 1. A refusal changes nothing.
#[tactic(auto, using(crate::proofs::Words::word_place_left, lines::proofs::Limits::place_small))]
pub fn troymantle_line_column(src: &[u8], offset: u64, place: &mut [u32; 2]) -> u64
    ensures { line_column_left result place.new ≡ line_column_call src.now offset place.old }
{
    let found = line_column(src, Byte(offset as usize));
    write_place(found, place);
    Word::from(found).0
}

// The offset that has a line and a column.
#[tactic(auto, using(lines::proofs::Limits::offset_small))]
pub fn troymantle_offset_at(src: &[u8], line: u64, column: u64) -> u64
    ensures { result ≡ offset_word (offset_at src.now (place line column)) }
{
    let sought = Place {
        line_num: LineNum(line),
        col_num: ColNum(column),
    };
    offset_word(offset_at(src, sought)).0
}
