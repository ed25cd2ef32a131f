// What a declaration's line says: its first word decides (01, Declarations). The line and each part of it are a `FileLine`; the definitions take the
// source and its `Line`.
ghost use Rattle.std.specs.Prelude.{◌≡◌, ◌+◌, ◌≤◌, length};
ghost use Rattle.area.specs.Phrases.{before};
ghost use Rattle.std.specs.List.{list_all};
ghost use Rattle.std.specs.Char.{is_ascii_alphanumeric, to_ascii_lowercase, to_ascii_uppercase};
ghost use Rattle.declarations.specs.Declarations.{range, trimmed, declares, states_of, declaration_of};
ghost use Rattle.declarations.specs.Stages.{declaration_by};

use crate::Declaration;
use section::reader::{FileLine, Line};
use text::range::{lookahead_is, part};
use text::scan::{find_whitespace, trim_end, trim_start};

fn all_alphanumeric(bytes: &[u8]) -> bool
    ensures { result ≡ list_all is_ascii_alphanumeric bytes.now }
{
    bytes.iter().all(u8::is_ascii_alphanumeric)
}

// Whether the word is `%`, the letter in either case, and letters or digits. The letter chooses no step: it is compared with the word's.
#[tactic(auto, using(crate::proofs::Words::words))]
fn declares_with(letter: u8, word: FileLine) -> bool
    ensures { result ≡ declares (to_ascii_lowercase letter) (to_ascii_uppercase letter) word.entry.file.source.now word.entry.line }
{
    match part(word.file.source, word.line.start, word.line.end) {
        [b'%', first, rest @ ..] => first.eq_ignore_ascii_case(&letter) && all_alphanumeric(rest),
        _ => false,
    }
}

// The names in the rest of a line, trimmed. Without names it is no declaration of states. What is exclusive is written into their records.
#[tactic(auto, using(crate::proofs::Words::stating))]
fn states_from(exclusive: u16, rest: FileLine) -> Declaration
    ensures { result ≡ states_of exclusive (trimmed rest.entry.file.source.now rest.entry.line) }
{
    let FileLine { file, line } = rest;
    let start = trim_start(file.source, line.start, line.end);
    let end = trim_end(file.source, start, line.end);
    if start == end {
        return Declaration::Unknown;
    }
    Declaration::States(exclusive, Line { start, end })
}

// What the line says whose first word ends at w, and whose rest starts at r.
#[tactic(auto, using(crate::proofs::Words::deciding))]
fn declaration_by(at: FileLine, w: usize, r: usize) -> Declaration
    requires { (at.line.start ≤ w) × (w ≤ r) × (r ≤ at.line.end) }
    ensures { result ≡ declaration_by at.entry.file.source.now (range at.entry.line.start w) (range r at.entry.line.end) }
{
    let FileLine { file, line } = at;
    let Line { start, end } = line;
    let word = FileLine {
        file,
        line: Line { start, end: w },
    };
    let rest = FileLine {
        file,
        line: Line { start: r, end },
    };
    if declares_with(b's', word) {
        return states_from(0, rest);
    }
    if declares_with(b'x', word) {
        return states_from(1, rest);
    }
    if lookahead_is(file.source, b"%expect-missing", start).is_some() {
        return Declaration::Expecting(r);
    }
    Declaration::Unknown
}

// What the line says. One that is only the word once trimmed has no rest.
#[tactic(auto, using(crate::proofs::Words::lining))]
pub fn declaration_of(at: FileLine) -> Declaration
    ensures { result ≡ declaration_of at.entry.file.source.now at.entry.line }
{
    let src = at.file.source;
    let Line { start, end } = at.line;
    let t = trim_end(src, start, end);
    let w = find_whitespace(src, start, end);
    if w == t {
        return declaration_by(at, w, end);
    }
    declaration_by(at, w, w)
}
