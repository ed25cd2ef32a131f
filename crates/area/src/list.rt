// A list of records in an area that is lent for reading.
ghost use Rattle.std.specs.Prelude.{ℕ, ◌≡◌, ◌*◌, ◌≤◌, ◌<◌, length, get_or};
ghost use Rattle.area.specs.Contents.{contents};
ghost use Rattle.area.specs.Asked.{AllPass, FirstFound};

use crate::Record;
use std::marker::{Model, PhantomData};

// In contracts it is the list of the records.
#[derive(Drop)]
pub struct Records<'a, R: Record> {
    bytes: &'a [u8],
    count: u16,
    of: PhantomData<R>,
}

impl<'a, R: Record> Model for Records<'a, R> {
    ghost use Rattle.std.specs.Prelude.{List, ◌*◌, ◌≤◌, length};
    ghost use Rattle.area.specs.Contents.{contents};

    ghost Value = { List R };

    ghost view = { λ s. contents R.format s.bytes.now s.count };

    ghost invariant = { λ s. s.count * R.format.width ≤ length s.bytes.now };
}

// A number below a count, as a field has it.
fn below(count: u16, k: usize) -> u16
    requires { k < count }
    ensures { result ≡ k }
{
    k as u16
}

impl<'a, R: Record> Records<'a, R> {
    // An area and its count, which are one value from here on.
    pub fn new(bytes: &'a [u8], count: u16) -> Records<'a, R>
        requires { count * R.format.width ≤ length bytes.now }
        ensures { result ≡ contents R.format bytes.now count }
    {
        Records {
            bytes,
            count,
            of: PhantomData,
        }
    }

    pub fn count(&self) -> usize
        ensures { result ≡ length self.now }
    {
        self.count as usize
    }

    // The bytes that the records are read of, for a caller that goes by the places of fields.
    pub fn bytes(&self) -> &'a [u8]
        ensures { (length self.now * R.format.width ≤ length result.now) × (self.now ≡ contents R.format result.now (length self.now)) }
    {
        self.bytes
    }

    pub fn get(&self, k: usize) -> R
        requires { k < length self.now }
        ensures { result ≡ get_or self.now k R.format.blank }
    {
        R::read(self.bytes, k)
    }

    // The number of record k, as a field has it: a list has no more records than a field can count.
    pub fn number(&self, k: usize) -> u16
        requires { k < length self.now }
        ensures { result ≡ k }
    {
        below(self.count, k)
    }

    // Whether the test passes every record. Each is asked, with no branch, for mostly all of them pass.
    pub fn all<F: Fn(R) -> bool>(&self, test: F) -> bool
        requires { (k : ℕ) → k < length self.now → F.pre test (get_or self.now k R.format.blank) }
        ensures { AllPass (F.post test) R.format.blank self.now result }
    {
        let mut passed = true;
        for k in 0..self.count() {
            passed = passed & test(self.get(k));
        }
        passed
    }

    // The first number from one to before another whose record passes the test.
    pub fn position_in<F: Fn(usize, R) -> bool>(
        &self,
        from: usize,
        end: usize,
        test: F,
    ) -> Option<usize>
        requires range { (from ≤ end) × (end ≤ length self.now) }
        requires callable { (k : ℕ) → from ≤ k → k < end → F.pre test k (get_or self.now k R.format.blank) }
        ensures { FirstFound (F.post test) R.format.blank self.now from end result }
    {
        for k in from..end {
            if test(k, self.get(k)) {
                return Some(k);
            }
        }
        None
    }

    // The first number whose record passes the test.
    pub fn position<F: Fn(usize, R) -> bool>(&self, test: F) -> Option<usize>
        requires { (k : ℕ) → k < length self.now → F.pre test k (get_or self.now k R.format.blank) }
        ensures { FirstFound (F.post test) R.format.blank self.now 0 (length self.now) result }
    {
        self.position_in(0, self.count(), test)
    }
}
