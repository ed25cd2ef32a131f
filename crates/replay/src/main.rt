// Parses each recorded file anew and compares all that the call leaves with what was recorded: the word, the counts and every byte of the
// areas. The records are in the file `answers`; compare/FORMAT.md has their form.
#![tactic(auto)]

mod call;
mod record;

use call::zeros;
use record::replay_all;
use streams::{read_file, say};

// More than the file has: what fills it may have been cut off.
const ROOM: usize = 655360;

fn main(rt: HostRuntime) {
    let mut buffer = zeros::<ROOM>();
    let Some(answers) = read_file(&rt, "answers", &mut buffer) else {
        return;
    };
    if answers.len() == ROOM {
        say(&rt, b"answers is too long\n");
        return;
    }
    replay_all(&rt, answers);
}
