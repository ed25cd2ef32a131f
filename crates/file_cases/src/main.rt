// Prints the sheet of each file of standard input, where a zero byte ends a file: the files of 01, Files to try, in their order.
#![tactic(auto)]

use sheet_print::{SHEET_ROOM, sheet};
use streams::{read_full, say, show_texts};

fn show(rt: &impl Print, s: &[u8]) {
    let mut out = [0u8; SHEET_ROOM];
    let n = sheet(s, &mut out);
    say(rt, b"file\n");
    say(rt, &out[..n]);
}

// Each program has a `main` of its own.
fn main(rt: HostRuntime) {
    let mut buffer = [0u8; 4096];
    let texts = read_full(&mut rt.stdin(), &mut buffer);
    show_texts(texts, 0, |text| show(&rt, text));
}
