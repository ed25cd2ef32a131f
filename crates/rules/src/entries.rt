// The list of states in front of a pattern, between `<` and `>` (01, Rules).
// Places stand beside the source, as in the definitions: a part of the source would move each of them. The area that is lent stays beside its count:
// in a struct of both there would be a parameter less and, at each function, a promise more that the same bytes are lent.
ghost use Rattle.std.specs.Prelude.{◌≤◌, ◌<◌, length};
ghost use Rattle.characters.specs.Walk.{Below};
ghost use Rattle.area.specs.Contents.{entry_format, Held};
ghost use Rattle.area.specs.Phrases.{before};
ghost use Rattle.fault.specs.Phrases.{DoesRecords};
ghost use Rattle.rules.specs.Rules.{entry_id, next_entry, entries};

use area::list::Records;
use area::{State, push};
use fault::{LexErrorKind, Stop};
use names::get_start_state_by_name;
use section::LexFile;
use text::scan::{find_byte, trim_end, trim_start};

// The state whose name, trimmed, stands from a to e.
#[tactic(auto, unfolding(crate::specs::Rules::entry_id))]
fn state_between(src: &[u8], a: usize, e: usize, states: &Records<State>) -> Option<usize>
    requires { (a ≤ e) × (e ≤ length src.now) }
    ensures { Below (length states.now) (entry_id src.now states.now a e) result }
{
    let x = trim_start(src, a, e);
    get_start_state_by_name(src, x, trim_end(src, x, e), states)
}

// The next name from a on, up to a comma or the `>` at g. The line starts at i.
#[tactic(auto, using(crate::proofs::Listing::entry_unknown))]
fn next_entry(
    src: &[u8],
    i: u16,
    g: usize,
    a: usize,
    states: &Records<State>,
    area3: &mut [u8],
    count: &mut u16,
) -> Result<usize, Stop>
    requires a_le_g { (a ≤ g) × (g < length src.now) }
    requires held { Held entry_format area3.old count.old }
    ensures { DoesRecords entry_format (λ c3. next_entry src.now c3 states.now i g a) area3 count result }
{
    let e = find_byte(src, a, g, b',');
    let Some(j) = state_between(src, a, e, states) else {
        return Err(Stop::Fault(LexErrorKind::UnknownStartState.at(i)));
    };
    *count = push(area3, *count, states.number(j))?;
    Ok(e + 1)
}

// Each name between the `<` at i and the `>` at g, as far as it goes: no index is counted.
#[tactic(auto, using(crate::proofs::Listing::lists_start))]
pub fn parse_start_states(
    file: LexFile,
    i: usize,
    g: usize,
    states: &Records<State>,
    area3: &mut [u8],
    count: &mut u16,
) -> Result<usize, Stop>
    requires i_le_g { (i ≤ g) × (g < length file.source.now) }
    requires held { Held entry_format area3.old count.old }
    ensures { DoesRecords entry_format (λ c3. entries file.entry.source.now c3 states.now i g) area3 count result }
{
    let mut a = i + 1;
    while a <= g {
        a = next_entry(file.source, i as u16, g, a, states, area3, count)?;
    }
    Ok(a)
}
