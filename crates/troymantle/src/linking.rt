// The link call (01, Linking).
ghost use Rattle.std.specs.Prelude.{◌≡◌};
ghost use Rattle.link.specs.Link.{link_call};
ghost use Rattle.sheet_check.specs.Phrases.{sheet_in};
ghost use Rattle.area.specs.Phrases.{before, after};
ghost use Rattle.troymantle.specs.LinkWords.{in_link_words, link_in_words};

use link::call::set_rule_ids_spanned;
use words::Word;

// Gives the named rules of a sheet the ids of a map. A refusal changes nothing.
#[tactic(auto, using(crate::proofs::Words::word_link_left))]
pub fn troymantle_link(
    src: &[u8],
    area1: &[u8],
    area2: &mut [u8],
    area3: &[u8],
    area4: &[u8],
    area5: &[u8],
    counts: &[u16; 6],
    names: &[u8],
    entries: &[u8],
    area7: &mut [u8],
    area8: &mut [u8],
) -> u64
    ensures { link_in_words result area2.new area7.new area8.new
        ≡ in_link_words (link_call (sheet_in src.now area1.now area2.old area3.now area4.now area5.now counts.now) names.now entries.now area7.old area8.old) }
{
    let answer = set_rule_ids_spanned(
        src, area1, area2, area3, area4, area5, counts, names, entries, area7, area8,
    );
    Word::from(answer).0
}
