// The calls of the host (01, Numbers given at the counter), which crate troymantle_c hands on to C. An answer is one word of four two-byte fields:
// its number, then its values. Areas and counts are parameters, as C has them; inside they are one `Sheet`.
#![tactic(auto)]

ghost use Rattle.std.specs.Prelude.{◌≡◌};
ghost use Rattle.section.specs.Request.{asked};
ghost use Rattle.parse.specs.Parse.{parse_call};
ghost use Rattle.parse.specs.Phrases.{room_in};
ghost use Rattle.troymantle.specs.Words.{in_words};
ghost use Rattle.troymantle.specs.Phrases.{words_left_in};

use parse::call::parse;
use parse::counts_left;
use words::Word;

pub mod linking;
pub mod pattern;
pub mod places;
pub mod running;

// Reads a lex file into six areas. On refusal the areas and counts are zero, but for the fault spans of number 5.
#[tactic(auto, using(crate::proofs::Words::word_left))]
pub fn troymantle_parse(
    src: &[u8],
    flags: u64,
    verdicts: &[u8],
    area1: &mut [u8],
    area2: &mut [u8],
    area3: &mut [u8],
    area4: &mut [u8],
    area5: &mut [u8],
    area6: &mut [u8],
    counts: &mut [u16; 6],
) -> u64
    ensures { words_left_in result counts area1 area2 area3 area4 area5 area6
        ≡ in_words (parse_call (asked src.now flags verdicts.now) (room_in area1 area2 area3 area4 area5 area6)) }
{
    let answer = parse(
        src, flags, verdicts, area1, area2, area3, area4, area5, area6,
    );
    *counts = counts_left(answer);
    Word::from(answer).0
}
