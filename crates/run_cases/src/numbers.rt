// The numbers of a line as two-byte fields.
ghost use Rattle.std.specs.Prelude.{◌≤◌, length};

// The numbers are the first `count` of these fields.
#[derive(Drop)]
pub struct Numbers {
    fields: [[u8; 2]; 64],
    count: usize,
}

impl Numbers {
    // What does not fit is left out.
    fn push(&mut self, number: u16) {
        if let Some(field) = self.fields.get_mut(self.count) {
            *field = number.to_le_bytes();
            self.count += 1;
        }
    }

    pub fn as_slice(&self) -> &[u8]
        ensures { length result.now ≤ 128 }
    {
        self.fields.get(..self.count).unwrap_or(&[]).as_flattened()
    }
}

// The low half of each byte is a digit, whatever the byte is; the number is taken modulo 65,536.
fn number_of(word: &[u8]) -> u16 {
    word.iter().fold(0u16, |x, digit| {
        x.wrapping_mul(10).wrapping_add((*digit % 16) as u16)
    })
}

// The numbers behind the first word of a line.
pub fn numbers_of(line: &[u8]) -> Numbers {
    let mut numbers = Numbers {
        fields: [[0; 2]; 64],
        count: 0,
    };
    for word in line.split(|byte| *byte == b' ').skip(1) {
        numbers.push(number_of(word));
    }
    numbers
}

// Number k of two-byte fields, and 0 where there is none: a line may name fewer numbers than its call takes.
pub fn number_at(fields: &[u8], k: usize) -> u16 {
    let (fields, _) = fields.as_chunks::<2>();
    fields.get(k).map_or(0, |x| u16::from_le_bytes(*x))
}
