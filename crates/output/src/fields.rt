// The two-byte fields of an area, read and appended as numbers. An area is lent with a place, since it may end before the fields do.
ghost use Rattle.std.specs.Prelude.{◌≡◌, ◌≤◌};
ghost use Rattle.area.specs.Bytes.{field_at};
ghost use Rattle.output.specs.Output.{printed_fields_at};
ghost use Rattle.output.specs.Text.{Appends};

use crate::Text;
use characters::whitespace::byte_at;

// The field at a place; bytes past the end count as 0.
#[tactic(auto, using(std::proofs::lemmas::List::get_or_past), unfolding(area::specs::Bytes::field_at))]
pub fn field_at(area: &[u8], at: usize) -> u16
    ensures { result ≡ field_at area.now at }
{
    if at >= area.len() {
        return 0;
    }
    u16::from_le_bytes([byte_at(area, at), byte_at(area, at + 1)])
}

impl Text<'_> {
    // The m fields from a place on. Every record that a count of 16 bits tells starts below 65,536 × 28.
    #[tactic(auto, using(crate::proofs::AreaFields::field_printing))]
    pub fn push_fields(&mut self, area: &[u8], at: usize, m: usize)
        requires { (at ≤ 1835008) × (m ≤ 14) }
        ensures { Appends self.old self.new (printed_fields_at area.now at m) }
    {
        for j in 0..m {
            self.push_field(field_at(area, at + 2 * j));
        }
    }
}
