// What the winner of a row does: its answer, the run's numbers and the stack (01, The run).
ghost use Rattle.std.specs.Prelude.{◌≡◌, ◌+◌, ◌*◌, ◌≤◌, length};
ghost use Rattle.area.specs.Records.{entry_width};
ghost use Rattle.area.specs.Phrases.{before, after};
ghost use Rattle.run.specs.Run.{running, run_left, put_state, with_depth, operated, move_by, won_by};
ghost use Rattle.run.specs.Phrases.{HasRoom, Inside};

use crate::{After, Run, Step, StepError};
use area::{Record, Rule, StartStateOperation};

// Entry k of the stack, in the layout that C has of it. The stack is lent whole, for k is a place and no length of a part.
#[tactic(auto, unfolding(crate::specs::Run::put_state, area::specs::Records::entry_fields, area::specs::Bytes::bytes, area::specs::Bytes::two))]
pub fn put_state(stack: &mut [u8], k: u16, id: u16)
    requires { k * entry_width + entry_width ≤ length stack.old }
    ensures { stack.new ≡ put_state stack.old k id }
{
    id.write(stack, k as usize);
}

impl Run {
    // Does the operation of a rule, and answers how many entries are in use then.
    fn operate(self, x: Rule, stack: &mut [u8]) -> u16
        requires { HasRoom self (length stack.old) }
        ensures { running (with_depth self result) stack.new ≡ operated (running self stack.old) x }
    {
        match StartStateOperation::from_field(x.operation) {
            Some(StartStateOperation::ReplaceStack) => {
                put_state(stack, 0, x.target);
                1 // the target alone
            }
            Some(StartStateOperation::Push) => {
                put_state(stack, self.depth, x.target);
                self.depth + 1
            }
            Some(StartStateOperation::Pop) => {
                if self.depth == 1 {
                    put_state(stack, 0, 0);
                    1 // state 0 alone
                } else {
                    self.depth - 1
                }
            }
            None => self.depth,
        }
    }

    // A move by the winner: the run's numbers after it.
    fn move_by(self, x: Rule, bytes: u16, stack: &mut [u8]) -> Run
        requires { Inside self bytes (length stack.old) }
        ensures { running result stack.new ≡ move_by (running self stack.old) x bytes }
    {
        let depth = self.operate(x, stack);
        Run {
            position: self.position + bytes,
            depth,
            moves: self.moves + 1,
            ..self
        }
    }

    // The winner, by so many bytes.
    pub fn won_by(self, x: Rule, bytes: u16, stack: &mut [u8]) -> After<Result<Step, StepError>>
        requires { Inside self bytes (length stack.old) }
        ensures { run_left result.answer result.run stack.new ≡ won_by (running self stack.old) x bytes }
    {
        if !x.is_named() {
            let run = self.move_by(x, bytes, stack);
            return run.after(Ok(Step::Skip));
        }
        if x.has_id != 1 {
            return self.after(Ok(Step::Unlinked));
        }
        let run = self.move_by(x, bytes, stack);
        run.after(Ok(Step::Token {
            id: x.id,
            start: self.position,
            length: bytes,
        }))
    }
}
