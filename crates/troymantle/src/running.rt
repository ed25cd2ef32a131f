// The start call and the step call (01, The run; 02, 2/13 and 3/13).
ghost use Rattle.std.specs.Prelude.{◌≡◌};
ghost use Rattle.run.specs.Run.{running, input, run_left, start_call, step_call};
ghost use Rattle.run.specs.Phrases.{lent_input};
ghost use Rattle.sheet_check.specs.Phrases.{lent_sheet, sheet_in};
ghost use Rattle.troymantle.specs.RunWords.{start_in_words, step_in_words};

use run::call::{start, step};
use run::{After, LentInput, Run};
use sheet_check::Sheet;
use words::Word;

// The start call on a run by value, its answer as a word: what is lent a `&mut Run` stays thin.
#[tactic(auto, using(crate::proofs::Words::word_run_left))]
fn start_by_value(kind: u64, n: u64, text: &[u8], r: Run, stack: &mut [u8]) -> After<Word>
    ensures { run_left result.answer.0 result.run stack.new ≡ start_in_words (start_call kind n text.now (running r stack.old)) }
{
    start(kind, n, text, r, stack).map(Word::from)
}

// Begins a run over an entry of n bytes, which is this text, for a seller (kind 0) or a kiosk (kind 1). A refusal changes nothing.
pub fn troymantle_start(kind: u64, n: u64, text: &[u8], run: &mut Run, stack: &mut [u8]) -> u64
    ensures { run_left result run.new stack.new ≡ start_in_words (start_call kind n text.now (running run.old stack.old)) }
{
    let after = start_by_value(kind, n, text, *run, stack);
    *run = after.run;
    after.answer.0
}

// The step call likewise.
#[tactic(auto, using(crate::proofs::Words::word_run_left))]
fn step_by_value(sheet: Sheet, r: Run, stack: &mut [u8], input: LentInput) -> After<Word>
    ensures { run_left result.answer.0 result.run stack.new
        ≡ step_in_words (step_call (lent_sheet sheet.entry) (running r stack.old) (lent_input input.entry)) }
{
    let after = step(sheet, r, stack, input);
    after.map(Word::from)
}

// Moves a run over this text on by a row, one length for each rule. A refusal changes nothing.
pub fn troymantle_step(
    src: &[u8],
    area1: &[u8],
    area2: &[u8],
    area3: &[u8],
    area4: &[u8],
    area5: &[u8],
    counts: &[u16; 6],
    text: &[u8],
    run: &mut Run,
    stack: &mut [u8],
    row: &[u8],
) -> u64
    ensures { run_left result
        run.new stack.new ≡ step_in_words (step_call (sheet_in src.now area1.now area2.now area3.now area4.now area5.now counts.now)
        (running run.old stack.old) (input text.now row.now)) }
{
    let sheet = Sheet {
        source: src,
        states: area1,
        rules: area2,
        entries: area3,
        text: area4,
        expected: area5,
        counts,
    };
    let after = step_by_value(sheet, *run, stack, LentInput { text, row });
    *run = after.run;
    after.answer.0
}
