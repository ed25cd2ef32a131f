// The home of a name: the slot of the index at which the search for it begins. Equal names have the same home, and nothing else is used of it.
// It is made of Fletcher's checksum of the bytes: over a long name, additions are quicker than multiplications one after the other.
ghost use Rattle.std.specs.Prelude.{◌≡◌};
ghost use Rattle.name_map.specs.Home.{add_number, mixed, Home};

// The sum of the numbers so far, and the sum of these sums.
#[derive(Clone, Copy)]
struct Checksum {
    sum: u32,
    sums: u32,
}

impl Checksum {
    #[tactic(auto, unfolding(crate::specs::Home::add_number))]
    fn add_number(self, number: u32) -> Checksum
        ensures { result ≡ add_number self number }
    {
        let sum = self.sum.wrapping_add(number);
        Checksum {
            sum,
            sums: self.sums.wrapping_add(sum),
        }
    }
}

// By the multiplier of Fibonacci hashing, 2^32 divided by the golden ratio.
fn mix(h: u32, number: u32) -> u32
    ensures { result ≡ mixed h number }
{
    h.wrapping_mul(2654435769).wrapping_add(number)
}

// The home of a name: its length, then four bytes at a time, then the rest one by one.
pub fn home_of(name: &[u8]) -> usize
    ensures { Home name.now result }
{
    let n = name.len();
    let start = Checksum {
        sum: (n % 4294967296) as u32,
        sums: 0,
    };
    let (words, rest) = name.as_chunks::<4>();
    let c = words.iter().fold(start, |c, word| { c.add_number(u32::from_le_bytes(*word)) });
    let c = rest.iter().fold(c, |c, byte| c.add_number(*byte as u32));
    // the highest 12 of 32 bits, which the multiplier mixes best
    (mix(mix(c.sum, c.sums), 0) >> 20) as usize
}
