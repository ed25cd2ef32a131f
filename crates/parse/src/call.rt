// The parse call (01, Numbers given at the counter, and Areas). The six areas are parameters as C lends them, down to `parse_sections`, which makes
// the areas of each section of them. A struct of all six would hold the lent slices of those structs, and of such a one its maker learns nothing
// (tried; docs/PROVING.md, A step of the parse).
ghost use Rattle.std.specs.Prelude.{◌≡◌};
ghost use Rattle.area.specs.Phrases.{before, after};
ghost use Rattle.section.specs.Request.{asked, asked_by};
ghost use Rattle.parse.specs.Parse.{file, leaves, parse_call};
ghost use Rattle.parse.specs.Answers.{Zeroed};
ghost use Rattle.parse.specs.Phrases.{room_in, left_in};

use crate::sections::parse_sections;
use crate::{FileCounts, ParseError};
use answers::MOST_SOURCE;
use area::clear;
use characters::utf8::utf8;
use section::LexFile;
use section::options::Options;

const MOST_FLAGS: u64 = 3;

// A file that is UTF-8, into areas that are zero.
fn parse_text(
    lex_file: LexFile,
    area1: &mut [u8],
    area2: &mut [u8],
    area3: &mut [u8],
    area4: &mut [u8],
    area5: &mut [u8],
    area6: &mut [u8],
) -> Result<FileCounts, ParseError>
    requires zeroed { Zeroed area1.old area2.old area3.old area4.old area5.old area6.old }
    ensures { let room = room_in area1 area2 area3 area4 area5 area6 in
        left_in result area1 area2 area3 area4 area5 area6 ≡ leaves room (file (asked_by lex_file.entry) room) }
{
    match parse_sections(lex_file, area1, area2, area3, area4, area5, area6) {
        Ok(counts) => Ok(counts),
        Err(error) => {
            clear(area1);
            clear(area2);
            clear(area3);
            clear(area4);
            clear(area5);
            if error.has_faults() {
                return Err(error);
            }
            clear(area6);
            Err(error)
        }
    }
}

// Everything is zero before the first test, and stays so where the call is refused by 1, 2, 3 or 4.
pub fn parse(
    src: &[u8],
    flags: u64,
    verdicts: &[u8],
    area1: &mut [u8],
    area2: &mut [u8],
    area3: &mut [u8],
    area4: &mut [u8],
    area5: &mut [u8],
    area6: &mut [u8],
) -> Result<FileCounts, ParseError>
    ensures { left_in result area1 area2 area3 area4 area5 area6
        ≡ parse_call (asked src.now flags verdicts.now) (room_in area1 area2 area3 area4 area5 area6) }
{
    clear(area1);
    clear(area2);
    clear(area3);
    clear(area4);
    clear(area5);
    clear(area6);
    if src.len() > MOST_SOURCE {
        return Err(ParseError::LongFile);
    }
    if flags > MOST_FLAGS {
        return Err(ParseError::UnknownFlag);
    }
    if utf8(src) {
        let lex_file = LexFile {
            source: src,
            options: Options::from(flags),
            verdicts,
        };
        return parse_text(lex_file, area1, area2, area3, area4, area5, area6);
    }
    Err(ParseError::InvalidUtf8)
}
