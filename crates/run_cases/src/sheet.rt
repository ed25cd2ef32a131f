// The sheet of a file, in areas of its own.
use link::call::set_rule_ids_spanned;
use link::{LinkError, Linked};
use parse::call::parse;
use parse::{FileCounts, ParseError, counts_left};
use run::call::step;
use run::{After, LentInput, Run, Step, StepError};

#[derive(Drop)]
pub struct Sheet<'a> {
    source: &'a [u8],
    pub counts: [u16; 6],
    area1: [u8; 60],
    area2: [u8; 560],
    area3: [u8; 40],
    area4: [u8; 40],
    area5: [u8; 40],
}

impl<'a> Sheet<'a> {
    pub fn parse(source: &'a [u8]) -> (Sheet<'a>, Result<FileCounts, ParseError>) {
        // Locals, since fields that are lent for writing together do not prove.
        let mut area1 = [0; 60];
        let mut area2 = [0; 560];
        let mut area3 = [0; 40];
        let mut area4 = [0; 40];
        let mut area5 = [0; 40];
        let mut area6 = [0; 40];
        let answer = parse(
            source, 0, b"", &mut area1, &mut area2, &mut area3, &mut area4, &mut area5, &mut area6,
        );
        let sheet = Sheet {
            source,
            counts: counts_left(answer),
            area1,
            area2,
            area3,
            area4,
            area5,
        };
        (sheet, answer)
    }

    // The names of the entries are parts of ABCDGH.
    pub fn link(&mut self, entries: &[u8]) -> Result<Linked, LinkError> {
        // A copy, since a field that is lent for writing beside others does not prove.
        let mut area2 = self.area2;
        let mut area7 = [0; 32];
        let mut area8 = [0; 32];
        let answer = set_rule_ids_spanned(
            self.source,
            &self.area1,
            &mut area2,
            &self.area3,
            &self.area4,
            &self.area5,
            &self.counts,
            b"ABCDGH",
            entries,
            &mut area7,
            &mut area8,
        );
        self.area2 = area2;
        answer
    }

    pub fn set_count(&mut self, k: u16, value: u16) {
        if let Some(count) = self.counts.get_mut(k as usize) {
            *count = value;
        }
    }

    pub fn step(
        &self,
        run: Run,
        stack: &mut [u8],
        input: LentInput,
    ) -> After<Result<Step, StepError>> {
        let sheet = sheet_check::Sheet {
            source: self.source,
            states: &self.area1,
            rules: &self.area2,
            entries: &self.area3,
            text: &self.area4,
            expected: &self.area5,
            counts: &self.counts,
        };
        step(sheet, run, stack, input)
    }
}
