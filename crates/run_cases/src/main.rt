// Runs entries over the sheet of a small lex file and prints each answer, the run's numbers and the stack's first entries. The lex file is
// `file.l`; standard input has the calls, one to a line (module calls).
#![tactic(auto)]

mod calls;
mod numbers;
mod printing;
mod runs;
mod sheet;

use calls::answer;
use printing::{Listed, Outcome};
use runs::Runs;
use sheet::Sheet;
use streams::{read_file, read_full, say, show_texts};

// A line that starts with # is only printed. What cannot be written is left out.
fn play(rt: &impl Print, source: &[u8], lines: &[u8]) {
    let (mut sheet, parsed) = Sheet::parse(source);
    let mut runs = Runs::new();
    let outcome = Outcome::from(parsed);
    let counts = Listed(&sheet.counts);
    let _ = println!(rt; "parse:{outcome}{counts}");
    show_texts(lines, b'\n', |line| {
        say(rt, line);
        if !line.starts_with(b"#") {
            let outcome = answer(&mut sheet, &mut runs, line);
            let _ = print!(rt; ":{outcome}{runs}");
        }
        say(rt, b"\n");
    });
}

fn main(rt: HostRuntime) {
    let mut file = [0u8; 4096];
    let Some(source) = read_file(&rt, "file.l", &mut file) else {
        return;
    };
    let mut input = [0u8; 65536];
    let lines = read_full(&mut rt.stdin(), &mut input);
    play(&rt, source, lines);
}
