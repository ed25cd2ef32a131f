// A run with its stack, and the entry's text. They would do for an entry of 4,097 bytes, so that a run can be broken by n alone.
use crate::numbers::number_at;
use crate::printing::Listed;
use crate::sheet::Sheet;
use run::call::start;
use run::{LentInput, Run, StartError, Step, StepError};
use std::fmt;

// The text is the first `length` of these bytes.
#[derive(Drop)]
struct Text {
    bytes: [u8; 4097],
    length: usize,
}

impl Text {
    fn as_slice(&self) -> &[u8] {
        self.bytes.get(..self.length).unwrap_or(&[])
    }
}

#[derive(Drop)]
pub struct Runs {
    pub run: Run,
    text: Text,
    stack: [u8; 8196],
}

impl Runs {
    pub fn new() -> Self {
        Runs {
            run: Run::default(),
            text: Text {
                bytes: [0; 4097],
                length: 0,
            },
            stack: [0; 8196],
        }
    }

    // Another text; of one that is too long nothing is kept.
    pub fn set_text(&mut self, text: &[u8]) {
        self.text.length = 0;
        if let Some(place) = self.text.bytes.get_mut(..text.len()) {
            place.copy_from_slice(text);
            self.text.length = text.len();
        }
    }

    // The text cut to so many bytes, or with `a`s behind it up to so many; above 4,097 it stays.
    pub fn fill(&mut self, bytes: u16) {
        let length = bytes as usize;
        if length > self.text.bytes.len() {
            return;
        }
        if let Some(more) = self.text.bytes.get_mut(self.text.length..length) {
            more.fill(b'a');
        }
        self.text.length = length;
    }

    // Another byte of the text.
    pub fn damage(&mut self, k: u16, value: u16) {
        let at = k as usize;
        if at >= self.text.length {
            return;
        }
        if let Some(byte) = self.text.bytes.get_mut(at) {
            *byte = (value % 256) as u8;
        }
    }

    // By a caller of this kind, over an entry of n bytes, with so many bytes of the stack, or all of it.
    pub fn start(&mut self, kind: u16, n: u16, bytes: u16) -> Result<(), StartError> {
        let most = self.stack.len().min(bytes as usize);
        let stack = &mut self.stack[..];
        let begun = start(
            kind as u64,
            n as u64,
            self.text.as_slice(),
            self.run,
            &mut stack[..most],
        );
        self.run = begun.run;
        begun.answer
    }

    // With so many bytes of the stack, or all of it.
    pub fn step(&mut self, sheet: &Sheet, bytes: u16, row: &[u8]) -> Result<Step, StepError> {
        let most = self.stack.len().min(bytes as usize);
        let input = LentInput {
            text: self.text.as_slice(),
            row,
        };
        let stack = &mut self.stack[..];
        let stepped = sheet.step(self.run, &mut stack[..most], input);
        self.run = stepped.run;
        stepped.answer
    }

    // Another entry of the stack.
    pub fn put(&mut self, k: u16, id: u16) {
        if let Some(entry) = self.stack.as_chunks_mut::<2>().0.get_mut(k as usize) {
            *entry = id.to_le_bytes();
        }
    }
}

// The five numbers of the run, and the first four entries of its stack.
impl fmt::Display for Runs {
    fn fmt<W: fmt::Write>(&self, f: &mut fmt::Formatter<W>) -> fmt::Result {
        let run = self.run;
        let numbers = Listed(&[run.n, run.position, run.depth, run.moves, run.kind]);
        let entries = Listed(&[0, 1, 2, 3].map(|k| number_at(&self.stack, k)));
        write!(f, " |{numbers} |{entries}")
    }
}
