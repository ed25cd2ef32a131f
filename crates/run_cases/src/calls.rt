// The calls that a line names by its first word, with the numbers behind it.
use crate::numbers::{number_at, numbers_of};
use crate::printing::Outcome;
use crate::runs::Runs;
use crate::sheet::Sheet;
use run::Run;

#[derive(Clone, Copy)]
enum Command {
    // `link FROM LENGTH ID ..`: a map of these entries.
    Link,
    // `count K VALUE`: another count of the sheet.
    Count,
    // `text TEXT`: another text.
    Text,
    // `fill BYTES`: the text cut, or `a`s behind it.
    Fill,
    // `damage K VALUE`: another byte of the text.
    Damage,
    // `start KIND N BYTES`: by a caller of that kind, over an entry of N bytes, with so many bytes of the stack.
    Start,
    // `put K ID`: another entry of the stack.
    Put,
    // `numbers N POSITION DEPTH MOVES KIND`: another run.
    Numbers,
    // `row LENGTH ..`: a step.
    Row,
    // `bytes BYTES LENGTH ..`: a step with only so many bytes of the stack.
    Bytes,
    // `odd LENGTH ..`: a step whose row lacks its last byte.
    Odd,
}

// The first letter tells it.
fn command_of(line: &[u8]) -> Option<Command> {
    match line.first()? {
        b'l' => Some(Command::Link),
        b'c' => Some(Command::Count),
        b't' => Some(Command::Text),
        b'f' => Some(Command::Fill),
        b'd' => Some(Command::Damage),
        b's' => Some(Command::Start),
        b'p' => Some(Command::Put),
        b'n' => Some(Command::Numbers),
        b'r' => Some(Command::Row),
        b'b' => Some(Command::Bytes),
        b'o' => Some(Command::Odd),
        _ => None,
    }
}

// The call of a line.
pub fn answer(sheet: &mut Sheet, runs: &mut Runs, line: &[u8]) -> Outcome {
    let Some(command) = command_of(line) else {
        return Outcome::Unknown;
    };
    let numbers = numbers_of(line);
    let fields = numbers.as_slice();
    let number = |k: usize| number_at(fields, k);
    match command {
        Command::Link => sheet.link(fields).into(),
        Command::Count => {
            sheet.set_count(number(0), number(1));
            Outcome::Changed
        }
        Command::Text => {
            runs.set_text(line.strip_prefix(b"text ").unwrap_or(b""));
            Outcome::Changed
        }
        Command::Fill => {
            runs.fill(number(0));
            Outcome::Changed
        }
        Command::Damage => {
            runs.damage(number(0), number(1));
            Outcome::Changed
        }
        Command::Start => runs.start(number(0), number(1), number(2)).into(),
        Command::Put => {
            runs.put(number(0), number(1));
            Outcome::Changed
        }
        Command::Numbers => {
            runs.run = Run {
                n: number(0),
                position: number(1),
                depth: number(2),
                moves: number(3),
                kind: number(4),
            };
            Outcome::Changed
        }
        Command::Row => runs.step(sheet, u16::MAX, fields).into(),
        Command::Bytes => {
            let row = fields.get(2..).unwrap_or(&[]);
            runs.step(sheet, number(0), row).into()
        }
        Command::Odd => match fields.split_last() {
            Some((_, row)) => runs.step(sheet, u16::MAX, row).into(),
            None => Outcome::Changed,
        },
    }
}
