// Names of states and of rules: their form, and the record of a name (01, Declarations and Rules).
// A name is a source and two places in it, as in the definitions and in a record. The search for a rule takes it as a slice, cut once, and promises what
// it finds of any two places where those bytes stand.
#![tactic(auto)]

pub mod marks; // marks of the names of rules

ghost use Rattle.std.specs.Prelude.{ℕ, List, ◌≡◌, ◌≤◌, ◌<◌, length};
ghost use Rattle.std.specs.List.{list_all};
ghost use Rattle.characters.specs.Walk.{Below};
ghost use Rattle.text.specs.Range.{part};
ghost use Rattle.area.specs.declared.State.{State};
ghost use Rattle.area.specs.Records.{nth_state, nth_rule};
ghost use Rattle.names.specs.Names.{is_name_byte, is_state_name, is_state, find_state, has_name, find_rule};
ghost use Rattle.names.specs.Marks.{EndsInside, NamesHeld};

use crate::marks::{MARKS, mark_of};
use area::list::Records;
use area::{Rule, State};
use characters::class::{is_digit, is_letter};
use characters::walk::find_last;
use text::range::{part, same_bytes, same_range};

// The name of state 0.
const INITIAL: &[u8] = b"INITIAL";

#[tactic(auto, using(crate::proofs::Forms::name_byte))]
fn is_name_byte(b: u8) -> bool
    ensures { result ≡ is_name_byte b }
{
    is_letter(b) | (is_digit(b) | ((b == b'_') | (b == b'.')))
}

fn all_name_bytes(bytes: &[u8]) -> bool
    ensures { result ≡ list_all is_name_byte bytes.now }
{
    bytes.iter().all(|&b| is_name_byte(b))
}

// Whether the bytes from a to e have the form of a state's name.
#[tactic(auto, using(crate::proofs::Forms::forming))]
pub fn validate_start_state_name(src: &[u8], a: usize, e: usize) -> bool
    requires { e ≤ length src.now }
    ensures { result ≡ is_state_name src.now a e }
{
    a < e && is_letter(src[a]) && all_name_bytes(&src[a + 1..e])
}

// Whether the state j, whose record is x, has the name from a to e: `position` gives it j and x. The span of state 0 is empty, so its name is no part
// of the source.
#[tactic(auto, using(crate::proofs::Finds::comparing_names))]
fn is_state(src: &[u8], a: usize, e: usize, j: usize, x: State) -> bool
    ensures { (xs : List State) → nth_state xs j ≡ x → result ≡ is_state src.now a e xs j }
{
    if j == 0 {
        return part(src, a, e) == INITIAL;
    }
    same_range(src, a, e, src, x.start as usize, x.end as usize)
}

// The state whose name stands from a to e.
pub fn get_start_state_by_name(
    src: &[u8],
    a: usize,
    e: usize,
    states: &Records<State>,
) -> Option<usize>
    ensures { Below (length states.now) (find_state src.now a e states.now) result }
{
    states.position(|j, x| is_state(src, a, e, j, x))
}

// Whether the rule has the name, which is a part of the source. Lengths come first; bytes are compared only where the lengths are equal and the rule is
// named.
#[tactic(auto, using(crate::proofs::Finds::comparing_names))]
fn has_name(src: &[u8], name: &[u8], x: Rule) -> bool
    requires { EndsInside src.now x }
    ensures { (a e : ℕ) → name.now ≡ part src.now a e → result ≡ has_name src.now a e x }
{
    if x.name_length as usize != name.len() {
        return false;
    }
    x.is_named() && same_bytes(name, &src[x.name_from as usize..x.name_end()])
}

// The rules of a source so far, and the marks of their names. Names end inside the source, and no two are the same.
#[derive(Drop)]
pub struct NamedRules<'a> {
    source: &'a [u8],
    rules: Records<'a, Rule>,
    marks: &'a [bool; MARKS],
    ghost names: { NamesHeld source.now rules marks.now },
}

impl<'a> NamedRules<'a> {
    pub fn new(
        source: &'a [u8],
        rules: Records<'a, Rule>,
        marks: &'a [bool; MARKS],
    ) -> NamedRules<'a>
        requires { NamesHeld source.now rules marks.now }
        ensures source { result.source.now ≡ source.now }
        ensures rules { result.rules ≡ rules.entry }
    {
        NamedRules {
            source,
            rules,
            marks,
        }
    }

    pub fn get(&self, k: usize) -> Rule
        requires { k < length self.now.rules }
        ensures { result ≡ nth_rule self.now.rules k }
    {
        self.rules.get(k)
    }

    // The rule that has the name, which is a part of the source: from the newest rule to the oldest (02, 4/13). No two rules have the same name, so the order
    // does not change which is found.
    fn search(&self, name: &[u8]) -> Option<usize>
        ensures { (a e : ℕ) → name.now ≡ part self.now.source.now a e
            → Below (length self.now.rules) (find_rule self.now.source.now a e self.now.rules) result }
    {
        let (source, rules) = (self.source, &self.rules);
        find_last(0, rules.count(), |k| has_name(source, name, rules.get(k)))
    }

    // The rule whose name stands from a to e. Where the name's mark is not set no rule has it, and none is looked at.
    #[tactic(auto, using(crate::proofs::Marking::unmarked_missing))]
    pub fn find(&self, a: usize, e: usize) -> Option<usize>
        ensures { Below (length self.now.rules) (find_rule self.now.source.now a e self.now.rules) result }
    {
        let name = part(self.source, a, e);
        if !self.marks[mark_of(name)] {
            return None;
        }
        self.search(name)
    }
}
