// Whether what a start and a step are given fits: the entry's text, and the row (01, Numbers given at the counter, 10; 02, 2/13).
// Lengths count from a place in the text, and what they end at is asked of the text: a part of it would move that place.
#![tactic(auto)]

ghost use Rattle.std.specs.Prelude.{◌≡◌, ◌+◌, ◌≤◌, length};
ghost use Rattle.area.specs.Contents.{contents, entry_format};
ghost use Rattle.area.specs.Lists.{all};
ghost use Rattle.characters.specs.Utf8.{is_continuation, is_edge};
ghost use Rattle.characters.specs.Walk.{any};
ghost use Rattle.characters.specs.Whitespace.{byte};
ghost use Rattle.input_check.specs.InputCheck.{good_text, length_fits};
ghost use Rattle.winner.specs.Top.{RowTopIs};

use area::list::Records;
use characters::utf8::{is_continuation, is_edge, utf8};
use characters::walk::any_of;
use winner::Row;

// The length first, so that a text of another length is not read.
#[tactic(auto, unfolding(crate::specs::InputCheck::good_text))]
pub fn good_text(n: u64, text: &[u8]) -> bool
    ensures { result ≡ good_text n text.now }
{
    if text.len() as u64 != n {
        return false;
    }
    utf8(text)
}

// Whether one of the n bytes from k on stands inside a character. It looks at all of them, so that the compiler can take many at once.
#[tactic(auto, using(characters::proofs::Asking::asks_any))]
fn has_inside(text: &[u8], k: usize, n: usize) -> bool
    requires { k + n ≤ length text.now }
    ensures { result ≡ any (λ j. is_continuation (byte text.now (k + j))) n }
{
    any_of(n, |j| is_continuation(text[k + j]))
}

// Whether each length ends at an edge, rule by rule.
fn each_at_edge(text: &[u8], position: u16, row: Row) -> bool
    ensures { result ≡ all (λ l. is_edge text.now (position + l)) (contents entry_format row.entry.bytes.now row.entry.rules) }
{
    let from = position as usize;
    row.lengths().all(|l| is_edge(text, from + l as usize))
}

// The same. Where the greatest length ends at an edge and no byte before that stands inside a character, every length ends at an edge.
fn all_at_edge(text: &[u8], position: u16, row: Row) -> bool
    requires { position + row.top ≤ length text.now }
    ensures { result ≡ all (λ l. is_edge text.now (position + l)) (contents entry_format row.entry.bytes.now row.entry.rules) }
{
    let from = position as usize;
    let top = row.top as usize;
    if is_edge(text, from + top) && !has_inside(text, from, top) {
        return true;
    }
    each_at_edge(text, position, row)
}

// The row, where it fits. Every length is at most the bytes left where the greatest is; then the edges.
// Its five parameters are the text and the row as they are lent, what is left and where the position is in a run, and how many rules a sheet has; run
// and sheet are no part of this crate.
pub fn row_top<'a>(
    text: &[u8],
    left: u16,
    position: u16,
    rules: u16,
    row: &'a [u8],
) -> Option<Row<'a>>
    requires { position + left ≤ length text.now }
    ensures { RowTopIs (length_fits text.now left position) rules row.now result }
{
    let lengths = Row::fitting(row, rules, left)?;
    if all_at_edge(text, position, lengths) {
        return Some(lengths);
    }
    None
}
