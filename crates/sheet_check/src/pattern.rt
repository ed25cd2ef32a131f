// The pattern call (01, Areas, 4): the text of a rule, borrowed from the source or from the rewritten text, whichever its place names.
ghost use Rattle.std.specs.Prelude.{◌≡◌};
ghost use Rattle.answers.specs.Numbers.{number_of};
ghost use Rattle.sheet_check.specs.Phrases.{lent_sheet};
ghost use Rattle.sheet_check.specs.Pattern.{pattern_part, pattern_call, handed, number_of as test_number};

use crate::Sheet;
use crate::check::check;
use answers::Number;
use area::RuleText;

// Where the text of a rule stands; none where number 6 holds.
pub fn locate(sheet: Sheet, rule: u64) -> Option<RuleText>
    ensures { result ≡ pattern_part (lent_sheet sheet.entry) rule }
{
    if !check(sheet) {
        return None;
    }
    let rules = sheet.rule_records();
    if rules.count() as u64 <= rule {
        return None;
    }
    let x = rules.get(rule as usize);
    Some(RuleText {
        place: x.place,
        from: x.text_from,
        length: x.text_length,
    })
}

// The text of a rule; an empty part of the source where number 6 holds.
pub fn pattern<'a>(sheet: Sheet<'a, '_>, rule: u64) -> &'a [u8]
    ensures { handed result.ref_ptr result.now
        ≡ pattern_call sheet.entry.source.ref_ptr sheet.entry.text.ref_ptr (lent_sheet sheet.entry) rule }
{
    match locate(sheet, rule) {
        Some(part) => {
            let start = part.from as usize;
            let end = start + part.length as usize;
            if part.place == 1 {
                return &sheet.text[start..end];
            }
            &sheet.source[start..end]
        }
        None => &sheet.source[0..0],
    }
}

// Accepted where the pattern call hands back a rule's text, and number 6 where it does not.
#[tactic(auto, unfolding(crate::specs::Pattern::number_of))]
pub fn pattern_test(sheet: Sheet, rule: u64) -> Number
    ensures { number_of result ≡ test_number (pattern_part (lent_sheet sheet.entry) rule) }
{
    match locate(sheet, rule) {
        Some(_) => Number::Accepted,
        None => Number::BrokenSheet,
    }
}
