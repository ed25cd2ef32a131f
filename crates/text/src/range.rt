// Ranges of texts: whether two are the same bytes, and whether a word stands at an offset.
// A range is a text and two places in it, and a word stands at a place, as in the definitions; a range may end past its text, which no slice does.
ghost use Rattle.std.specs.Prelude.{◌≡◌, ◌≤◌, length};
ghost use Rattle.text.specs.Range.{part, same_bytes, same_range, lookahead_is};

// The bytes of s from a to before e, as far as s has them.
#[tactic(auto, using(crate::proofs::Ranges::cutting))]
pub fn part(s: &[u8], a: usize, e: usize) -> &[u8]
    ensures { result.now ≡ part s.now a e }
{
    s.get(a..e.min(s.len())).unwrap_or(&[])
}

// Whether two texts have the same bytes. Their lengths are asked first, then their first bytes and their last ones, since names that begin alike differ
// at their ends. It is built into its callers: mostly these tests answer already.
#[inline(always)]
#[tactic(auto, using(crate::proofs::Ranges::texts_compared))]
pub fn same_bytes(x: &[u8], y: &[u8]) -> bool
    ensures { result ≡ same_bytes x.now y.now }
{
    let n = x.len();
    if n != y.len() {
        return false;
    }
    if n == 0 {
        return true;
    }
    if x[0] != y[0] {
        return false;
    }
    if x[n - 1] != y[n - 1] {
        return false;
    }
    x[..n - 1] == y[..n - 1]
}

// Whether the bytes of s from a to e are those of t from c to d: of two texts, of one text lent twice, or of a text and a constant.
// A range may end past its text, so that records of any content can be compared.
#[tactic(auto, unfolding(crate::specs::Range::same_range))]
pub fn same_range(s: &[u8], a: usize, e: usize, t: &[u8], c: usize, d: usize) -> bool
    ensures { result ≡ same_range s.now a e t.now c d }
{
    same_bytes(part(s, a, e), part(t, c, d))
}

// Behind the bytes of word, if they stand at i.
#[tactic(auto, using(crate::proofs::Ranges::looking_ahead))]
pub fn lookahead_is(s: &[u8], word: &[u8], i: usize) -> Option<usize>
    requires { i ≤ length s.now }
    ensures { result ≡ lookahead_is s.now word.now i }
{
    if s[i..].starts_with(word) {
        return Some(i + word.len());
    }
    None
}
