// The record of a rule: the engine's verdict, then the record (01, Rules).
// The area that is lent stays beside its count: in a struct of both there would be a parameter less and, at each function, a promise more that the
// same bytes are lent.
ghost use Rattle.std.specs.Prelude.{◌≡◌};
ghost use Rattle.area.specs.Contents.{rule_format, Held};
ghost use Rattle.area.specs.Phrases.{before};
ghost use Rattle.fault.specs.Phrases.{DoesRecords};
ghost use Rattle.rules.specs.Rules.{refuses, record_rule};

use area::{Rule, push};
use characters::whitespace::byte_at;
use fault::{LexErrorKind, Stop};

// Whether the engine refuses the rule at the position k. Past the end of the verdicts it passes.
#[tactic(auto, unfolding(crate::specs::Rules::refuses))]
fn refuses(verdicts: &[u8], k: usize) -> bool
    ensures { result ≡ refuses verdicts.now k }
{
    byte_at(verdicts, k) != 0
}

// The rule x of the line from i to e, behind as many as `count` says.
#[tactic(auto, using(crate::proofs::Recording::rule_refused))]
pub fn record_rule(
    verdicts: &[u8],
    i: u16,
    e: usize,
    x: Rule,
    area2: &mut [u8],
    count: &mut u16,
) -> Result<usize, Stop>
    requires { Held rule_format area2.old count.old }
    ensures { DoesRecords rule_format (λ c2. record_rule verdicts.now c2 i e x) area2 count result }
{
    if refuses(verdicts, *count as usize) {
        return Err(Stop::Fault(LexErrorKind::RegexError.at(i)));
    }
    *count = push(area2, *count, x)?;
    Ok(e)
}
