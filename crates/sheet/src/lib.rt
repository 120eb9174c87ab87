// The sheet reader (specification, 'The sheet'): it reads a sheet's lines into rows and their texts.
#![tactic(auto)]

ghost use Rattle.std.specs.Prelude.{◌≡◌, ◌*◌, ◌≤◌, ◌<◌, length};
ghost use Rattle.shared.specs.Report.{refuse, refusal_number};
ghost use Rattle.rows.specs.Row.{row_size};
ghost use Rattle.sheet.specs.Answer.{reported, refusal_of, sheet_answer, sheet_rows, sheet_text};
ghost use Rattle.sheet.specs.Steps.{StepAt, ReadAt};

use shared::refusal::{Refusal, Refused};

mod line;
mod row;

use line::TextEnd;

// How many rows a sheet has, and how many bytes their texts have.
#[derive(Clone, Copy, Debug, PartialEq, Eq)]
pub struct SheetSize {
    pub rows: usize,
    pub text_bytes: usize,
}

// Why a sheet is refused. Lines are numbered from 1, after the names line.
#[derive(Clone, Copy, Debug, PartialEq, Eq)]
pub enum SheetError {
    // The sheet does not begin with the names line.
    NoNames,
    // The line of this number breaks its form.
    BadLine { line: usize },
    // The row of the line of this number does not fit, or its text does not.
    SheetFull { line: usize },
}

impl From<SheetError> for Refused {
    ghost from_gives = { λ e r. refuse (refusal_number r.refusal) r.place ≡ refusal_of e };

    fn from(error: SheetError) -> Refused {
        match error {
            SheetError::NoNames => Refused {
                refusal: Refusal::NoNames,
                place: 0,
            },
            SheetError::BadLine { line } => Refused {
                refusal: Refusal::BadLine,
                place: line,
            },
            SheetError::SheetFull { line } => Refused {
                refusal: Refusal::SheetFull,
                place: line,
            },
        }
    }
}

// The names line.
const NAMES: &[u8; 15] = b"what kind text\n";

// Reads `sheet`: its rows go into `rows`, 16 bytes each, and their texts into `text`, one after another.
pub fn read_sheet(sheet: &[u8], rows: &mut [u8], text: &mut [u8]) -> Result<SheetSize, SheetError>
    ensures answer { reported result
        ≡ sheet_answer sheet.now (length rows.old) (length text.old) }
    ensures rows { rows.new
        ≡ sheet_rows sheet.now rows.old text.old }
    ensures text { text.new
        ≡ sheet_text sheet.now rows.old text.old }
{
    if !sheet.starts_with(NAMES) {
        return Err(SheetError::NoNames);
    }
    let read = read_lines(sheet, rows, text);
    if read.is_err() {
        rows.fill(0);
        text.fill(0);
    }
    read
}

// Reads the lines after the names line. Where a line ends is known only once it has been read, so the index
// is counted by hand.
fn read_lines(sheet: &[u8], rows: &mut [u8], text: &mut [u8]) -> Result<SheetSize, SheetError>
    ensures { ReadAt sheet.now rows.old text.old result rows.new text.new }
{
    let mut at = NAMES.len();
    let mut n = 0;
    let mut len = 0;
    while at < sheet.len() {
        let text_end = read_line(sheet, at, rows, n, text, len)?;
        at = text_end.next;
        len = text_end.end;
        n += 1;
    }
    Ok(SheetSize {
        rows: n,
        text_bytes: len,
    })
}

// Reads the line at index `at` of `sheet`. Its row goes into `rows` after `n` rows, and its text into `text`
// after `len` bytes. No `Sink` holds these two: by one, a sheet is read at 600 million bytes a second in place
// of 960.
#[tactic(auto, using(crate::proofs::Stepping::line_steps))]
fn read_line(
    sheet: &[u8],
    at: usize,
    rows: &mut [u8],
    n: usize,
    text: &mut [u8],
    len: usize,
) -> Result<TextEnd, SheetError>
    requires { (at < length sheet.now) × (row_size * n ≤ length rows.old) × (len ≤ length text.old) }
    ensures { StepAt sheet.now at rows.old n text.old len result
        rows.new text.new }
{
    let line = n + 1;
    let head = line::head_at(sheet, at).ok_or(SheetError::BadLine { line })?;
    let read = line::read_text(sheet, head.from, text, len).ok_or(SheetError::BadLine { line })?;
    if text.len() < read.end {
        return Err(SheetError::SheetFull { line });
    }
    if !row::store(rows, n, head.what, head.kind, len, read.end) {
        return Err(SheetError::SheetFull { line });
    }
    Ok(read)
}
