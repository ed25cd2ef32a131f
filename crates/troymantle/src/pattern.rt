// The pattern of a rule, as numbers: no exported function may hand back a reference, so the host takes the part itself (01, Areas, 4).
ghost use Rattle.std.specs.Prelude.{◌≡◌};
ghost use Rattle.sheet_check.specs.Pattern.{pattern_part, number_of, pattern_word};
ghost use Rattle.sheet_check.specs.Phrases.{sheet_in};

use sheet_check::Sheet;
use sheet_check::pattern::{locate, pattern_test};
use words::Word;

// Where the text of a rule stands: its place, from where, and its length; or number 6.
pub fn troymantle_pattern(
    src: &[u8],
    area1: &[u8],
    area2: &[u8],
    area3: &[u8],
    area4: &[u8],
    area5: &[u8],
    counts: &[u16; 6],
    rule: u64,
) -> u64
    ensures { result ≡ pattern_word (pattern_part (sheet_in src.now area1.now area2.now area3.now area4.now area5.now counts.now) rule) }
{
    let sheet = Sheet {
        source: src,
        states: area1,
        rules: area2,
        entries: area3,
        text: area4,
        expected: area5,
        counts,
    };
    let part = locate(sheet, rule);
    Word::from(part).0
}

// 0 where the rule has a text, and 6 where it has none.
pub fn troymantle_pattern_test(
    src: &[u8],
    area1: &[u8],
    area2: &[u8],
    area3: &[u8],
    area4: &[u8],
    area5: &[u8],
    counts: &[u16; 6],
    rule: u64,
) -> u64
    ensures { result ≡ number_of (pattern_part (sheet_in src.now area1.now area2.now area3.now area4.now area5.now counts.now) rule) }
{
    let sheet = Sheet {
        source: src,
        states: area1,
        rules: area2,
        entries: area3,
        text: area4,
        expected: area5,
        counts,
    };
    Word::of(pattern_test(sheet, rule)).0
}
