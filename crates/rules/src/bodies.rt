// What a pattern is: a list of states in front, or text whose escapes are rewritten or stay (01, Rules).
// Places stand beside the source, as in the definition: a part of the source would move each of them.
ghost use Rattle.std.specs.Prelude.{◌≡◌, ◌≤◌, length};
ghost use Rattle.rules.specs.Heading.{body_of};

use crate::Body;
use characters::whitespace::byte_at;
use escape::is_rewritten;
use text::scan::find_byte;

// The pattern from i to c. An empty one has no list, whatever byte stands behind it.
#[tactic(auto, unfolding(crate::specs::Heading::body_of, crate::specs::Heading::has_list, crate::specs::Heading::list_end))]
pub fn body_of(src: &[u8], i: usize, c: usize) -> Body
    requires { (i ≤ c) × (c ≤ length src.now) }
    ensures { result ≡ body_of src.now i c }
{
    if (i < c) & (byte_at(src, i) == b'<') {
        let g = find_byte(src, i, c, b'>');
        if g < c {
            return Body::Listed(g);
        }
        return Body::Unclosed;
    }
    if is_rewritten(src, i, c) {
        return Body::Rewritten;
    }
    Body::Plain
}
