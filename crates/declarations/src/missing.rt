// The expected names of a line: in double quotes, split at ASCII whitespace (01, Declarations). They write one area, which stays beside its count: of
// all areas of the section each function would have to promise that the others stay.
ghost use Rattle.std.specs.Prelude.{◌≡◌, ◌+◌, ◌≤◌, ◌<◌, length};
ghost use Rattle.text.specs.Scan.{find_ascii_whitespace};
ghost use Rattle.area.specs.Contents.{expected_format, Held};
ghost use Rattle.area.specs.Phrases.{before};
ghost use Rattle.fault.specs.Phrases.{DoesRecords};
ghost use Rattle.declarations.specs.Declarations.{range, is_quoted, declare_expected, expected_names};

use area::{Expected, push};
use fault::{LexErrorKind, Stop};
use section::reader::{FileLine, Line};
use text::range::part;
use text::scan::{find_ascii_whitespace, skip_ascii_whitespace};

#[tactic(auto, using(crate::proofs::Expecting::quoting))]
fn is_quoted(word: FileLine) -> bool
    ensures { result ≡ is_quoted word.entry.file.source.now word.entry.line }
{
    matches!(
        part(word.file.source, word.line.start, word.line.end),
        [b'"', .., b'"']
    )
}

// The next name of the line, from a on.
#[tactic(auto, using(crate::proofs::Expecting::expecting))]
fn next_expected(at: FileLine, a: usize, area: &mut [u8], count: &mut u16) -> Result<usize, Stop>
    requires a_lt_end { a < at.line.end }
    requires held { Held expected_format area.old count.old }
    ensures { DoesRecords expected_format
        (λ c5. declare_expected at.entry.file.source.now c5 at.entry.line
        (range a (find_ascii_whitespace at.entry.file.source.now a at.entry.line.end)))
        area count result }
{
    let FileLine { file, line } = at;
    let end = find_ascii_whitespace(file.source, a, line.end);
    let word = FileLine {
        file,
        line: Line { start: a, end },
    };
    if is_quoted(word) {
        let name = Expected {
            start: (a + 1) as u16,
            end: (end - 1) as u16,
        };
        *count = push(area, *count, name)?;
        return Ok(skip_ascii_whitespace(file.source, end, line.end));
    }
    Err(Stop::Fault(LexErrorKind::InvalidName.at(line.start as u16)))
}

// The names from w to the line's end, each as far as it goes: no index is counted.
#[tactic(auto, using(crate::proofs::Expecting::expecting_all))]
pub fn expected_names(
    at: FileLine,
    w: usize,
    area: &mut [u8],
    count: &mut u16,
) -> Result<usize, Stop>
    requires w_le_end { w ≤ at.line.end }
    requires held { Held expected_format area.old count.old }
    ensures { DoesRecords expected_format
        (λ c5. expected_names at.entry.file.source.now c5 at.entry.line w)
        area count result }
{
    let mut a = skip_ascii_whitespace(at.file.source, w, at.line.end);
    while a < at.line.end {
        a = next_expected(at, a, area, count)?;
    }
    Ok(a)
}
