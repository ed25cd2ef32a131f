// Whether a run fits (01, Numbers given at the counter, 9; 02, 3/13).
ghost use Rattle.std.specs.Prelude.{◌≡◌};
ghost use Rattle.area.specs.Phrases.{before};
ghost use Rattle.run.specs.Run.{running, limit, within_limit, good_numbers, good_run};

use crate::{Run, limit};
use area::Record;
use area::list::Records;
use sheet_check::check::good_entries;

impl Run {
    // Whether the kind is known and n is within its limit.
    #[tactic(auto, unfolding(crate::specs::Run::within_limit))]
    fn is_within(self) -> bool
        ensures { result ≡ within_limit (limit self.kind) self.n }
    {
        limit(self.kind as u64).is_some_and(|most| self.n <= most)
    }

    // The sums are wider than a field, so that they cannot wrap.
    #[tactic(auto, unfolding(crate::specs::Run::good_numbers))]
    fn good_numbers(self, stack: &[u8]) -> bool
        ensures { result ≡ good_numbers (running self stack.now) }
    {
        self.is_within()
            & (self.position <= self.n)
            & (1 <= self.depth)
            & (self.depth as usize <= self.position as usize + 1)
            & (self.moves <= self.position)
            & (u16::WIDTH * (self.n as usize + 1) <= stack.len())
    }

    // The numbers first, so that the entries in use may be read.
    #[tactic(auto, using(crate::proofs::Fitting::run_fits))]
    pub fn is_good(self, states: u16, stack: &[u8]) -> bool
        ensures { result ≡ good_run states (running self stack.now) }
    {
        self.good_numbers(stack) && good_entries(&Records::new(stack, self.depth), states)
    }
}
