// Marks of names: a table that tells soon that no rule has a name. The last bytes of a name and its length give the place of its mark.
ghost use Rattle.std.specs.Prelude.{◌≡◌, take};
ghost use Rattle.names.specs.Marks.{from_end, Mark, Marked};

use area::Rule;
use area::list::Records;
use characters::whitespace::byte_at;
use text::range::part;

// How many marks there are.
pub const MARKS: usize = 4096;

// The k-th byte from the end of a name, and the first of a name that is shorter.
fn from_end(name: &[u8], k: usize) -> u8
    ensures { result ≡ from_end name.now k }
{
    byte_at(name, name.len().saturating_sub(k))
}

// The place of the mark of a name.
#[tactic(auto, using(crate::proofs::Marking::marking))]
pub fn mark_of(name: &[u8]) -> usize
    ensures { Mark name.now result }
{
    let (b, c, d, f) = (
        from_end(name, 1),
        from_end(name, 2),
        from_end(name, 3),
        from_end(name, 4),
    );
    (b as usize + 10 * c as usize + 100 * d as usize + 1000 * f as usize + name.len()) % MARKS
}

// The marks of the names of the rules from k on.
#[tactic(auto, using(crate::proofs::Marking::marking_rules))]
pub fn mark_rules(src: &[u8], rules: &Records<Rule>, k: usize, marks: &mut [bool; MARKS])
    requires { Marked src.now (take k rules.now) marks.old }
    ensures { Marked src.now rules.now marks.new }
{
    for j in k..rules.count() {
        let x = rules.get(j);
        if !x.is_named() {
            continue;
        }
        let at = mark_of(part(src, x.name_from as usize, x.name_end()));
        marks[at] = true;
    }
}
