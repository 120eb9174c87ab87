// What each call answers, as the numbers of a report or as a refusal.
ghost use Rattle.std.specs.Prelude.{◌≡◌};
ghost use Rattle.shared.specs.Report.{answer_report};
ghost use Rattle.format_tokens.specs.Answer.{reported as layout_reported};
ghost use Rattle.sheet.specs.Answer.{reported as sheet_reported};
ghost use Rattle.pieces.specs.Answer.{reported as pieces_reported};
ghost use Rattle.spaces.specs.Answer.{reported as space_reported};

use format_tokens::{LayoutError, Text};
use pieces::ReadError;
use shared::refusal::Refused;
use sheet::{SheetError, SheetSize};
use spaces::UnknownKind;

// Of a layout: its length, its inserted commas and plain.
pub fn of_layout(answer: Result<Text, LayoutError>) -> Result<[u64; 3], Refused>
    ensures { answer_report result ≡ layout_reported answer }
{
    let text = answer?;
    let plain = u64::from(text.plain);
    Ok([text.length as u64, text.commas as u64, plain])
}

// Of a sheet: its rows, its texts' bytes and 0.
pub fn of_sheet(answer: Result<SheetSize, SheetError>) -> Result<[u64; 3], Refused>
    ensures { answer_report result ≡ sheet_reported answer }
{
    let size = answer?;
    Ok([size.rows as u64, size.text_bytes as u64, 0])
}

// Of a text that was read back: its pieces, 0 and 0.
pub fn of_pieces(answer: Result<usize, ReadError>) -> Result<[u64; 3], Refused>
    ensures { answer_report result ≡ pieces_reported answer }
{
    let count = answer?;
    Ok([count as u64, 0, 0])
}

// Of a space: 1 or 0, 0 and 0.
pub fn of_space(answer: Result<bool, UnknownKind>) -> Result<[u64; 3], Refused>
    ensures { answer_report result ≡ space_reported answer }
{
    let needed = answer?;
    Ok([u64::from(needed), 0, 0])
}
