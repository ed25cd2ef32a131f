// From a place to its offset: the places of a text only go up, so it is passed, in blocks and then byte by byte, as long as none is past the place
// that is sought.
ghost use Rattle.std.specs.Prelude.{◌≡◌, ◌≤◌, ◌<◌};
ghost use Rattle.lines.specs.Lines.{offset_in};
ghost use Rattle.lines.specs.Places.{Reaches, Passes, Next};

use crate::counts::{Block, Source};
use crate::places::BLOCK;
use crate::{Byte, Place, PlaceError};

// An offset, and its place.
#[derive(Clone, Copy, PartialEq, Eq, PartialOrd, Ord, Debug)]
pub struct Reached {
    pub byte: Byte,
    pub place: Place,
}

impl Reached {
    // What is reached by WIDTH bytes more, where they are in the text and its place is not past what is sought.
    fn next<const WIDTH: usize>(self, source: &Source, sought: Place) -> Option<Reached>
        requires width_nonzero { (0 < WIDTH) × (WIDTH ≤ 64) }
        requires reaches { Reaches source.now.bytes.now sought self }
        ensures { Next source.now.bytes.now sought WIDTH self result }
    {
        let byte = Byte(self.byte.0 + WIDTH);
        if byte.0 > source.bytes.len() {
            return None;
        }
        let place = self.place.behind(&Block {
            source: *source,
            from: self.byte,
            to: byte,
        });
        if place.is_past(sought) {
            return None;
        }
        Some(Reached { byte, place })
    }

    // Goes on by WIDTH bytes at a time, as long as the place is not past what is sought: where that ends only `next` knows, so it is no `for`.
    fn pass_by<const WIDTH: usize>(self, source: &Source, sought: Place) -> Reached
        requires width_nonzero { (0 < WIDTH) × (WIDTH ≤ 64) }
        requires reaches { Reaches source.now.bytes.now sought self }
        ensures { Passes source.now.bytes.now sought WIDTH result }
    {
        let mut reached = self;
        while let Some(next) = reached.next::<WIDTH>(source, sought) {
            reached = next;
        }
        reached
    }
}

impl Source<'_> {
    // The offset that stands at a place.
    #[tactic(auto, using(crate::proofs::Searching::searching))]
    pub fn offset_of(&self, sought: Place) -> Result<Byte, PlaceError>
        ensures { result ≡ offset_in self.now.bytes.now sought }
    {
        let start = Reached {
            byte: Byte(0),
            place: Place::first(),
        };
        if start.place.is_past(sought) {
            return Err(PlaceError::NoSuchPlace);
        }
        let reached = start
            .pass_by::<BLOCK>(self, sought)
            .pass_by::<1>(self, sought);
        if sought.is_past(reached.place) {
            return Err(PlaceError::NoSuchPlace);
        }
        Ok(reached.byte)
    }
}
