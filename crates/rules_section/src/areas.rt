// The areas of the rules section, which it is lent for writing, with the counts of their records. Each function that takes them says that they stay
// the areas that were lent. That they hold what the counts say each function asks, and it is no invariant of the type: an area is written before its
// count is, and of a text that does not fit, the pieces that did stay behind the counted ones.
ghost use Rattle.std.specs.Prelude.{◌≡◌};
ghost use Rattle.area.specs.Contents.{rule_format, contents, Held};

use crate::RuleCounts;
use area::Rule;
use area::list::Records;

#[derive(Drop)]
pub struct RuleAreas<'a> {
    pub rules: &'a mut [u8],
    pub entries: &'a mut [u8],
    pub text: &'a mut [u8],
    pub faults: &'a mut [u8],
    pub counts: RuleCounts,
}

impl RuleAreas<'_> {
    // The rules, for reading.
    pub fn rule_records(&self) -> Records<Rule>
        requires { Held rule_format self.now.rules.now self.now.counts.sheet.rules }
        ensures { result ≡ contents rule_format self.now.rules.now self.now.counts.sheet.rules }
    {
        Records::new(self.rules, self.counts.sheet.rules)
    }
}
