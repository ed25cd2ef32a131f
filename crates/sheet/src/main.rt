// Reads a lex file from standard input and prints its sheet (01, Files to try, the end).
#![tactic(auto)]

use sheet_print::{SHEET_ROOM, sheet};
use streams::{fail, read_source};

// A byte more than a file may have is read, so that a file that is too long is refused.
fn main(rt: HostRuntime) {
    let mut buffer = [0u8; 65536];
    let source = read_source(&mut rt.stdin(), &mut buffer);
    if let Some(error) = source.failure {
        fail(&rt, "standard input", error);
        return;
    }
    let mut out = [0u8; SHEET_ROOM];
    let n = sheet(source.text, &mut out);
    if let Err(error) = rt.write_all(&out[..n]) {
        fail(&rt, "standard output", error);
    }
}
