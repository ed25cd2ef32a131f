// Parses the file on standard input and writes the pattern of each rule as the pattern call hands it back (01, Areas, 4): for each rule the answer
// of the test, and the part itself in brackets; then for a rule past the last, and for sheets that are broken.
#![tactic(auto)]

use parse::call::parse;
use parse::counts_left;
use sheet_check::Sheet;
use sheet_check::pattern::{pattern, pattern_test};
use streams::{read_full, say};

// What is written is the part that the call borrowed from the source or from area 4; its bytes are those of a file, which `Display` has not.
fn say_rule(rt: &impl Print, sheet: Sheet, rule: u64) {
    let test = u16::from(pattern_test(sheet, rule));
    let part = pattern(sheet, rule);
    let _ = print!(rt; "rule {rule}: {test} [");
    say(rt, part);
    say(rt, b"]\n");
}

// The rules, a rule past the last, and two sheets that are broken.
fn say_cases(rt: &impl Print, sheet: Sheet, misplaced: &[u8]) {
    let count = u64::from(sheet.sizes().rules);
    for rule in 0..count {
        say_rule(rt, sheet, rule);
    }
    say(rt, b"past the last: ");
    say_rule(rt, sheet, count);
    say(rt, b"without rewritten text: ");
    let short = Sheet { text: &[], ..sheet };
    say_rule(rt, short, 0);
    say(rt, b"a rule in place 2: ");
    let broken = Sheet {
        rules: misplaced,
        ..sheet
    };
    say_rule(rt, broken, 1);
}

fn show(rt: &impl Print, source: &[u8]) {
    let mut area1 = [0; 12];
    let mut area2 = [0; 280];
    let mut area3 = [0; 4];
    let mut area4 = [0; 16];
    let mut area5 = [0; 4];
    let mut area6 = [0; 8];
    let answer = parse(
        source, 0, b"", &mut area1, &mut area2, &mut area3, &mut area4, &mut area5, &mut area6,
    );
    if answer.is_err() {
        say(rt, b"not accepted\n");
        return;
    }
    // Rule 0 then stands in place 2, which is none.
    let mut misplaced = area2;
    misplaced[14] = 2;
    let sheet = Sheet {
        source,
        states: &area1,
        rules: &area2,
        entries: &area3,
        text: &area4,
        expected: &area5,
        counts: &counts_left(answer),
    };
    say_cases(rt, sheet, &misplaced);
}

fn main(rt: HostRuntime) {
    let mut buffer = [0u8; 4096];
    show(&rt, read_full(&mut rt.stdin(), &mut buffer));
}
