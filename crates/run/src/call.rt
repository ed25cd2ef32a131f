// The start call and the step call, on a run by value (01, Numbers given at the counter, and The run; 02, 2/13 and 3/13).
ghost use Rattle.std.specs.Prelude.{◌≡◌, true, ◌<◌, length};
ghost use Rattle.sheet_check.specs.SheetCheck.{decoded, sheet_check};
ghost use Rattle.sheet_check.specs.Phrases.{lent_sheet};
ghost use Rattle.run.specs.Run.{running, run_left, start_call, good_run, lexer_of, step_row, step_run, step_call};
ghost use Rattle.run.specs.Phrases.{lent_input, within_left};
ghost use Rattle.winner.specs.Top.{RowFits};

use crate::moves::put_state;
use crate::{After, LentInput, Run, StartError, Step, StepError, limit};
use area::Record;
use input_check::{good_text, row_top};
use sheet_check::Sheet;
use sheet_check::check::quick_check;
use winner::{LentLexer, Row};

// Begins a run over an entry of n bytes, which is this text, for a caller of this kind.
#[tactic(auto, using(crate::proofs::Stepping::left_with, crate::proofs::Stepping::starting))]
pub fn start(
    kind: u64,
    n: u64,
    text: &[u8],
    r: Run,
    stack: &mut [u8],
) -> After<Result<(), StartError>>
    ensures { run_left result.answer result.run stack.new ≡ start_call kind n text.now (running r stack.old) }
{
    let Some(most) = limit(kind) else {
        return r.after(Err(StartError::UnknownCaller));
    };
    if n > most as u64 {
        return r.after(Err(StartError::StartRefused));
    }
    if stack.len() < u16::WIDTH * (n as usize + 1) {
        return r.after(Err(StartError::StartRefused));
    }
    if !good_text(n, text) {
        return r.after(Err(StartError::TextMismatch));
    }
    put_state(stack, 0, 0);
    let first = Run {
        n: n as u16,
        position: 0,
        depth: 1,
        moves: 0,
        kind: kind as u16,
    };
    first.after(Ok(()))
}

// A row that fits: the winner, or that no live rule has a length.
fn step_row(lexer: &LentLexer, r: Run, stack: &mut [u8], row: Row) -> After<Result<Step, StepError>>
    requires stack_value { good_run (length lexer.now.states) (running r stack.old) ≡ true }
    requires position_lt_n { r.position < r.n }
    requires row_fits { RowFits (within_left r) (length lexer.now.rules) row.bytes.now row }
    ensures { run_left result.answer result.run stack.new ≡ step_row lexer.now (running r stack.old) row.entry.bytes.now }
{
    let state = u16::read(stack, r.depth as usize - 1);
    let Some(b) = lexer.winner(state, row) else {
        return r.after(Ok(Step::Stopped));
    };
    r.won_by(lexer.rule(b.rule), b.length, stack)
}

// A sheet that passed the check. The text has n bytes before the run is judged, so that the places of a good run lie inside it.
#[tactic(auto, using(sheet_check::proofs::Sheets::checked_fits))]
fn step_run(
    sheet: Sheet,
    r: Run,
    stack: &mut [u8],
    input: LentInput,
) -> After<Result<Step, StepError>>
    requires { sheet_check (lent_sheet sheet) ≡ true }
    ensures { run_left result.answer result.run stack.new
        ≡ step_run (lexer_of (decoded (lent_sheet sheet.entry))) (running r stack.old) (lent_input input.entry) }
{
    if !good_text(r.n as u64, input.text) {
        return r.after(Err(StepError::TextMismatch));
    }
    let sizes = sheet.sizes();
    if !r.is_good(sizes.states, stack) {
        return r.after(Err(StepError::BrokenRun));
    }
    if r.position == r.n {
        return r.after(Ok(Step::Done));
    }
    let left = r.n - r.position;
    let Some(row) = row_top(input.text, left, r.position, sizes.rules, input.row) else {
        return r.after(Err(StepError::RowMismatch));
    };
    let lexer = LentLexer::new(
        sheet.state_records(),
        sheet.rule_records(),
        sheet.entry_records(),
    );
    step_row(&lexer, r, stack, row)
}

// Moves a run on by one row. The sheet is checked first of all.
#[tactic(auto, using(crate::proofs::Stepping::left_with, crate::proofs::Stepping::sheet_refused, crate::proofs::Stepping::sheet_stepped))]
pub fn step(
    sheet: Sheet,
    r: Run,
    stack: &mut [u8],
    input: LentInput,
) -> After<Result<Step, StepError>>
    ensures { run_left result.answer result.run stack.new
        ≡ step_call (lent_sheet sheet.entry) (running r stack.old) (lent_input input.entry) }
{
    if !quick_check(sheet) {
        return r.after(Err(StepError::BrokenSheet));
    }
    step_run(sheet, r, stack, input)
}
