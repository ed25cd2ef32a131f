// The calls: numbers 1, 3 and 11, in that order (02, 1/13).
ghost use Rattle.std.specs.Prelude.{◌≡◌, Ok};
ghost use Rattle.std.specs.Result.{result_map_both};
ghost use Rattle.lines.specs.Lines.{tested, line_column, offset_at, place_left};
ghost use Rattle.lines.specs.Places.{SmallPlace};

use crate::counts::Source;
use crate::{Byte, Place, PlaceError};
use answers::MOST_SOURCE;
use characters::utf8::utf8;

impl<'a> Source<'a> {
    // A source that passes the tests that both calls begin with.
    #[tactic(auto, unfolding(crate::specs::Lines::tested))]
    fn checked(src: &'a [u8]) -> Result<Source<'a>, PlaceError>
        ensures { result_map_both (λ source. source.bytes.now) (λ error. error) result ≡ tested src.now (Ok src.now) }
    {
        if src.len() > MOST_SOURCE {
            return Err(PlaceError::LongFile);
        }
        if !utf8(src) {
            return Err(PlaceError::InvalidUtf8);
        }
        Ok(Source { bytes: src })
    }
}

// The line and column of an offset.
#[tactic(auto, using(crate::proofs::Testing::testing), unfolding(crate::specs::Lines::line_column))]
pub fn line_column(src: &[u8], byte: Byte) -> Result<Place, PlaceError>
    ensures { result ≡ line_column src.now byte.0 }
{
    Source::checked(src)?.place_in(byte)
}

// The offset of a line and column.
#[tactic(auto, using(crate::proofs::Testing::testing), unfolding(crate::specs::Lines::offset_at))]
pub fn offset_at(src: &[u8], place: Place) -> Result<Byte, PlaceError>
    ensures { result ≡ offset_at src.now place }
{
    Source::checked(src)?.offset_of(place)
}

// Writes the line and column that are known, as the C interface has them; where they are not, what is lent stays as it was.
#[tactic(auto, unfolding(crate::specs::Lines::place_left))]
pub fn write_place(found: Result<Place, PlaceError>, place: &mut [u32; 2])
    requires { SmallPlace found }
    ensures { place.new ≡ place_left found place.old }
{
    if let Ok(p) = found {
        *place = [p.line_num.0 as u32, p.col_num.0 as u32];
    }
}
