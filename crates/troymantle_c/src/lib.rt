// The C functions that a host calls: each is the call of its name in crate troymantle, with the same clauses. A crate is a library or a static
// library and not both, so they stand here; C sees a slice as a pointer and a length, and each area as a parameter of its own.
#![tactic(auto)]

ghost use Rattle.std.specs.Prelude.{◌≡◌};
ghost use Rattle.section.specs.Request.{asked};
ghost use Rattle.parse.specs.Parse.{parse_call};
ghost use Rattle.parse.specs.Phrases.{room_in};
ghost use Rattle.troymantle.specs.Words.{in_words};
ghost use Rattle.troymantle.specs.Phrases.{words_left_in};
ghost use Rattle.link.specs.Link.{link_call};
ghost use Rattle.sheet_check.specs.Phrases.{sheet_in};
ghost use Rattle.troymantle.specs.LinkWords.{in_link_words, link_in_words};
ghost use Rattle.sheet_check.specs.Pattern.{pattern_part, number_of, pattern_word};
ghost use Rattle.lines.specs.Lines.{place, line_column_left, line_column_call, offset_at, offset_word};
ghost use Rattle.run.specs.Run.{running, input, run_left, start_call, step_call};
ghost use Rattle.troymantle.specs.RunWords.{start_in_words, step_in_words};

use run::Run;

// Reads a lex file into six areas. On refusal the areas and counts are zero, but for the fault spans of number 5.
#[unsafe(no_mangle)]
pub extern "C" fn troymantle_parse(
    src: &[u8],
    flags: u64,
    verdicts: &[u8],
    area1: &mut [u8],
    area2: &mut [u8],
    area3: &mut [u8],
    area4: &mut [u8],
    area5: &mut [u8],
    area6: &mut [u8],
    counts: &mut [u16; 6],
) -> u64
    ensures { words_left_in result counts area1 area2 area3 area4 area5 area6
        ≡ in_words (parse_call (asked src.now flags verdicts.now) (room_in area1 area2 area3 area4 area5 area6)) }
{
    troymantle::troymantle_parse(
        src, flags, verdicts, area1, area2, area3, area4, area5, area6, counts,
    )
}

// Where the text of a rule stands: its place, from where, and its length; or number 6.
#[unsafe(no_mangle)]
pub extern "C" fn troymantle_pattern(
    src: &[u8],
    area1: &[u8],
    area2: &[u8],
    area3: &[u8],
    area4: &[u8],
    area5: &[u8],
    counts: &[u16; 6],
    rule: u64,
) -> u64
    ensures { result ≡ pattern_word (pattern_part (sheet_in src.now area1.now area2.now area3.now area4.now area5.now counts.now) rule) }
{
    troymantle::pattern::troymantle_pattern(src, area1, area2, area3, area4, area5, counts, rule)
}

// 0 where the rule has a text, and 6 where it has none.
#[unsafe(no_mangle)]
pub extern "C" fn troymantle_pattern_test(
    src: &[u8],
    area1: &[u8],
    area2: &[u8],
    area3: &[u8],
    area4: &[u8],
    area5: &[u8],
    counts: &[u16; 6],
    rule: u64,
) -> u64
    ensures { result ≡ number_of (pattern_part (sheet_in src.now area1.now area2.now area3.now area4.now area5.now counts.now) rule) }
{
    troymantle::pattern::troymantle_pattern_test(
        src, area1, area2, area3, area4, area5, counts, rule,
    )
}

// Gives the named rules of a sheet the ids of a map. A refusal changes nothing.
#[unsafe(no_mangle)]
pub extern "C" fn troymantle_link(
    src: &[u8],
    area1: &[u8],
    area2: &mut [u8],
    area3: &[u8],
    area4: &[u8],
    area5: &[u8],
    counts: &[u16; 6],
    names: &[u8],
    entries: &[u8],
    area7: &mut [u8],
    area8: &mut [u8],
) -> u64
    ensures { link_in_words result area2.new area7.new area8.new
        ≡ in_link_words (link_call (sheet_in src.now area1.now area2.old area3.now area4.now area5.now counts.now) names.now entries.now area7.old area8.old) }
{
    troymantle::linking::troymantle_link(
        src, area1, area2, area3, area4, area5, counts, names, entries, area7, area8,
    )
}

// Begins a run over an entry of n bytes, which is this text, for a seller (kind 0) or a kiosk (kind 1). A refusal changes nothing.
#[unsafe(no_mangle)]
pub extern "C" fn troymantle_start(
    kind: u64,
    n: u64,
    text: &[u8],
    run: &mut Run,
    stack: &mut [u8],
) -> u64
    ensures { run_left result run.new stack.new ≡ start_in_words (start_call kind n text.now (running run.old stack.old)) }
{
    troymantle::running::troymantle_start(kind, n, text, run, stack)
}

// Moves a run over this text on by a row, one length for each rule. A refusal changes nothing.
#[unsafe(no_mangle)]
pub extern "C" fn troymantle_step(
    src: &[u8],
    area1: &[u8],
    area2: &[u8],
    area3: &[u8],
    area4: &[u8],
    area5: &[u8],
    counts: &[u16; 6],
    text: &[u8],
    run: &mut Run,
    stack: &mut [u8],
    row: &[u8],
) -> u64
    ensures { run_left result
        run.new stack.new ≡ step_in_words (step_call (sheet_in src.now area1.now area2.now area3.now area4.now area5.now counts.now) (running run.old stack.old) (input text.now row.now)) }
{
    troymantle::running::troymantle_step(
        src, area1, area2, area3, area4, area5, counts, text, run, stack, row,
    )
}

// Writes the line and column of an offset of a source, both from 1. A refusal changes nothing.
#[unsafe(no_mangle)]
pub extern "C" fn troymantle_line_column(src: &[u8], offset: u64, place: &mut [u32; 2]) -> u64
    ensures { line_column_left result place.new ≡ line_column_call src.now offset place.old }
{
    troymantle::places::troymantle_line_column(src, offset, place)
}

// The offset that has a line and a column.
#[unsafe(no_mangle)]
pub extern "C" fn troymantle_offset_at(src: &[u8], line: u64, column: u64) -> u64
    ensures { result ≡ offset_word (offset_at src.now (place line column)) }
{
    troymantle::places::troymantle_offset_at(src, line, column)
}
