// The rule that wins: of those that are live the one with the greatest length, the earlier at a tie (01, The run).
#![tactic(auto)]

ghost use Rattle.std.specs.Prelude.{◌≡◌, ◌&&◌, eqb, cond, ◌+◌, ◌*◌, ◌≤◌, ◌<◌, length};
ghost use Rattle.area.specs.Contents.{contents, entry_format};
ghost use Rattle.area.specs.Records.{entry_width, nth_rule};
ghost use Rattle.characters.specs.Walk.{Below};
ghost use Rattle.winner.specs.Winner.{Lexer, live, length_in, weight, greatest, best, better, first_with};
ghost use Rattle.winner.specs.Phrases.{lexer, ListsInside, winning};

use area::list::Records;
use area::{Record, Rule, State};
use std::marker::Model;

// The greatest length among live rules, and the first rule that has it. At length 0 no rule wins, as in the definition `best`; `winner` answers an
// Option.
#[derive(Clone, Copy)]
pub struct Best {
    pub length: u16,
    pub rule: usize,
}

// ---- the row
//
// The host lends a row as bytes, two for the length of each rule of the sheet (C interface). It is no `Records`, whose value has the lengths
// alone: what a rule weighs (`weight`) is said of the row's bytes.

// The lengths of a row, one for each of so many rules, and the greatest of them.
#[derive(Clone, Copy)]
pub struct Row<'a> {
    pub bytes: &'a [u8],
    pub rules: u16,
    pub top: u16,
    pub ghost long: { rules * entry_width ≤ length bytes.now },
    pub ghost greatest_is: { top ≡ greatest (length_in bytes.now) rules },
}

pub fn greatest_length(row: &[u8], rules: u16) -> u16
    requires { rules * entry_width ≤ length row.now }
    ensures { result ≡ greatest (length_in row.now) rules }
{
    let lengths = Records::<u16>::new(row, rules);
    let mut top: u16 = 0;
    for k in 0..rules as usize {
        top = top.max(lengths.get(k));
    }
    top
}

impl<'a> Row<'a> {
    ghost use Rattle.std.specs.Prelude.{leb};
    ghost use Rattle.winner.specs.Top.{RowTopIs};

    pub fn new(bytes: &'a [u8], rules: u16) -> Row<'a>
        requires { rules * entry_width ≤ length bytes.now }
        ensures { (result.bytes.now ≡ bytes.now) × (result.rules ≡ rules) }
    {
        Row {
            bytes,
            rules,
            top: greatest_length(bytes, rules),
        }
    }

    pub fn lengths(self) -> Records<'a, u16>
        ensures { result ≡ contents entry_format self.entry.bytes.now self.entry.rules }
    {
        Records::new(self.bytes, self.rules)
    }

    // The row, where it fits: it has a length for each rule, and every length is at most what is left where the greatest is.
    pub fn fitting(bytes: &'a [u8], rules: u16, left: u16) -> Option<Row<'a>>
        ensures { RowTopIs (λ l. leb l left) rules bytes.now result }
    {
        if bytes.len() != rules as usize * u16::WIDTH {
            return None;
        }
        let row = Row::new(bytes, rules);
        if left < row.top {
            return None;
        }
        Some(row)
    }
}

// ---- the rules, the states and the lists

// The states, the rules and the list entries of a sheet, as they are lent. The list of each rule lies inside the entries.
#[derive(Drop)]
pub struct LentLexer<'a> {
    states: Records<'a, State>,
    rules: Records<'a, Rule>,
    entries: Records<'a, u16>,
}

impl<'a> Model for LentLexer<'a> {
    ghost use Rattle.winner.specs.Winner.{Lexer};

    ghost Value = { Lexer };

    ghost use Rattle.winner.specs.Phrases.{ListsInside};

    ghost view = { λ s. record { states = s.states; rules = s.rules; lists = s.entries } };

    ghost invariant = { λ s. ListsInside s.rules s.entries };
}

// That a state or a rule is one of the lexer's, and that a row has a length for each rule, are facts of two values, which no field of one has:
// so each contract asks for them.
impl<'a> LentLexer<'a> {
    pub fn new(
        states: Records<'a, State>,
        rules: Records<'a, Rule>,
        entries: Records<'a, u16>,
    ) -> LentLexer<'a>
        requires { ListsInside rules entries }
        ensures { result ≡ lexer states.entry rules.entry entries.entry }
    {
        LentLexer {
            states,
            rules,
            entries,
        }
    }

    pub fn rule(&self, k: usize) -> Rule
        requires { k < length self.now.rules }
        ensures { result ≡ nth_rule self.now.rules k }
    {
        self.rules.get(k)
    }

    // Whether rule k is live in a state.
    fn is_live(&self, state: u16, k: usize) -> bool
        requires { (state < length self.now.states) × (k < length self.now.rules) }
        ensures { result ≡ live self.now.states self.now.lists state (nth_rule self.now.rules k) }
    {
        let x = self.rules.get(k);
        if x.list_count == 0 {
            return self.states.get(state as usize).exclusive == 0;
        }
        let from = x.list_from as usize;
        let end = from + x.list_count as usize;
        self.entries
            .position_in(from, end, |_, id| id == state)
            .is_some()
    }

    // The better of the best rule so far and rule k, whose list is read only where its length would win. Beside the lexer and the state it has
    // the arguments of the definition `better`.
    #[tactic(auto, unfolding(crate::specs::Winner::better))]
    fn better_of(&self, state: u16, b: Best, k: usize, bytes: u16) -> Best
        requires { (state < length self.now.states) × (k < length self.now.rules) }
        ensures { result ≡ better b k (cond (live self.now.states self.now.lists state (nth_rule self.now.rules k)) bytes 0) }
    {
        if b.length < bytes && self.is_live(state, k) {
            return Best {
                length: bytes,
                rule: k,
            };
        }
        b
    }

    // The scan of all rules where no live one has the greatest length, so that those that have it need not be asked again.
    fn longest(&self, state: u16, row: Row) -> Best
        requires state_declared { state < length self.now.states }
        requires row_long { row.rules ≡ length self.now.rules }
        requires none_longest { row.rules ≡ first_with (weight self.now state row.bytes.now) row.top 0 row.rules }
        ensures { result ≡ best (weight self.now state row.entry.bytes.now) row.entry.rules }
    {
        let lengths = row.lengths();
        let mut b = Best { length: 0, rule: 0 };
        for k in 0..row.rules as usize {
            let bytes = lengths.get(k);
            if bytes != row.top {
                b = self.better_of(state, b, k, bytes);
            }
        }
        b
    }

    // The first live rule that has the greatest length, which is not 0. A rule is read only where the row has that length.
    fn first_longest(&self, state: u16, row: Row) -> Option<usize>
        requires state_declared { state < length self.now.states }
        requires row_long { row.rules ≡ length self.now.rules }
        requires top_nonzero { 0 < row.top }
        ensures { Below row.entry.rules (first_with (weight self.now state row.entry.bytes.now) row.entry.top 0 row.entry.rules) result }
    {
        row.lengths().position(
            |k, bytes|
                requires { (state < length self.now.states) × (k < length self.now.rules) }
                ensures { result ≡ (eqb bytes row.top && live self.entry.now.states self.entry.now.lists state (nth_rule self.entry.now.rules k)) }
            { bytes == row.top && self.is_live(state, k) },
        )
    }

    // The winner, by the greatest length of the row; none where no live rule has a length. Mostly a live rule has it; where none has, all rules are looked at.
    #[tactic(auto, using(crate::proofs::Topping::winner_none))]
    pub fn winner(&self, state: u16, row: Row) -> Option<Best>
        requires state_declared { state < length self.now.states }
        requires row_long { row.rules ≡ length self.now.rules }
        ensures { result ≡ winning (best (weight self.now state row.entry.bytes.now) row.entry.rules) }
    {
        if row.top == 0 {
            return None;
        }
        if let Some(rule) = self.first_longest(state, row) {
            return Some(Best {
                length: row.top,
                rule,
            });
        }
        let b = self.longest(state, row);
        if b.length == 0 { None } else { Some(b) }
    }
}
