// A record replayed: its file is parsed anew, and what the call left is compared with what was recorded.
ghost use Rattle.std.specs.Prelude.{◌≤◌, ◌<◌, length, take};
ghost use Rattle.recorded.specs.Comparison.{Compares};
ghost use Rattle.recorded.specs.Records.{source_at, source_end};
ghost use Rattle.replay.specs.Records.{buffers, Agrees, record_end};

use crate::call::{parse_into, zeros};
use output::Text;
use recorded::reader::Cursor;

// A record from behind its source on.
fn replay_rest(cursor: &mut Cursor, src: &[u8]) -> bool
    ensures { Compares (Agrees src.now cursor.old.answers.now cursor.old.at buffers) record_end cursor.old cursor.new result }
{
    let flags = cursor.long();
    let verdicts = cursor.bytes();
    let mut counts = [0; 6];
    let mut area1 = zeros::<512>();
    let mut area2 = zeros::<65536>();
    let mut area3 = zeros::<65536>();
    let mut area4 = zeros::<65536>();
    let mut area5 = zeros::<65536>();
    let mut area6 = zeros::<65536>();
    let word = parse_into(
        src,
        flags,
        verdicts,
        cursor,
        &mut counts,
        &mut area1,
        &mut area2,
        &mut area3,
        &mut area4,
        &mut area5,
        &mut area6,
    );
    cursor.compare(
        word,
        &counts,
        [&area1, &area2, &area3, &area4, &area5, &area6],
    )
}

fn replay(cursor: &mut Cursor) -> bool
    ensures { Compares
        (Agrees (take 65536 (source_at cursor.old.answers.now cursor.old.at)) cursor.old.answers.now (source_end cursor.old.answers.now cursor.old.at) buffers)
        (λ l at. record_end l (source_end l at)) cursor.old cursor.new result }
{
    let mut buffer = zeros::<65536>();
    let mut src = Text::new(&mut buffer);
    cursor.source(&mut src);
    replay_rest(cursor, src.as_slice())
}

// Behind the first empty line.
fn first_record(answers: &[u8]) -> usize
    ensures { result ≤ length answers.now }
{
    answers
        .windows(2)
        .position(|pair| pair == b"\n\n".as_slice())
        .map_or(answers.len(), |at| at + 2)
}

// A case that is not equal is named by its number from 1 on. What cannot be written is left out. The records go on to an end that only reading
// each of them finds, so no `for` counts them.
#[tactic(auto, using(crate::proofs::Whole::goes_behind))]
pub fn replay_all(rt: &impl Print, answers: &[u8]) {
    let mut cursor = Cursor::new(answers, first_record(answers));
    let mut cases = 0usize;
    let mut equal = 0usize;
    while cursor.at < answers.len() {
        let same = replay(&mut cursor);
        cases += 1;
        equal += usize::from(same);
        if !same {
            let _ = println!(rt; "different: {cases}");
        }
    }
    let _ = println!(rt; "cases: {cases}");
    let _ = println!(rt; "equal: {equal}");
}
