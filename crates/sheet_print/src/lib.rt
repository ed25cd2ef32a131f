// What the parse call makes of a file, as lines of text (01, Files to try, the end). The areas are parameters, as the call fills them.
#![tactic(auto)]

ghost use Rattle.std.specs.Prelude.{◌≤◌, length, get_or};
ghost use Rattle.output.specs.Output.{AllWritten};
ghost use Rattle.output.specs.Text.{Appends};
ghost use Rattle.parse.specs.Answers.{answered, counts_left};
ghost use Rattle.sheet_print.specs.Lines.{answer_text, sheet_text, sheet_room};

use answers::Number;
use output::Text;
use parse::call::parse;
use parse::{FileCounts, ParseError};
use sheet_lines::{put_faults, put_full, put_refused, put_sheet};

// The room that `sheet` asks for.
pub const SHEET_ROOM: usize = 262527;

// The lines that an answer and the areas come to.
#[tactic(auto, unfolding(crate::specs::Lines::answer_text, parse::specs::Parse::parse_fields))]
fn put_answer(
    out: &mut Text,
    src: &[u8],
    answer: Result<FileCounts, ParseError>,
    area1: &[u8],
    area2: &[u8],
    area6: &[u8],
)
    ensures { Appends out.old out.new
        (answer_text src.now (answered answer) (get_or (counts_left answer) 0 0) (get_or (counts_left answer) 1 0)
        area1.now area2.now area6.now) }
{
    match answer {
        Ok(counts) => put_sheet(out, src, counts.states, area1, counts.rules, area2),
        Err(ParseError::AreaFull(area)) => put_full(out, area.into()),
        Err(ParseError::FaultyFile(spans)) => put_faults(out, area6, spans),
        Err(error) => put_refused(out, error.into()),
    }
}

// All lines of a file with flags 0 and no verdicts, and how many bytes they have.
pub fn sheet(src: &[u8], out: &mut [u8]) -> usize
    requires { sheet_room ≤ length out.old }
    ensures { AllWritten (sheet_text src.now) out.new result }
{
    let mut area1 = [0u8; 384];
    let mut area2 = [0u8; 57344];
    let mut area3 = [0u8; 32768];
    let mut area4 = [0u8; 32768];
    let mut area5 = [0u8; 32768];
    let mut area6 = [0u8; 32768];
    let answer = parse(
        src, 0, b"", &mut area1, &mut area2, &mut area3, &mut area4, &mut area5, &mut area6,
    );
    let mut text = Text::new(out);
    put_answer(&mut text, src, answer, &area1, &area2, &area6);
    text.count
}
