// The C doors (specification, 'The doors'): each returns the refusal or 0, and fills a report of 24 bytes.
// Where `report` has another length, the refusal is 11, and nothing is changed.
#![tactic(auto)]

ghost use Rattle.std.specs.Prelude.{◌≡◌, length};
ghost use Rattle.definition.specs.Layout.{layout};
ghost use Rattle.format_source.specs.Source.{layout_source};
ghost use Rattle.sheet.specs.Answer.{sheet_answer, sheet_rows, sheet_text};
ghost use Rattle.pieces.specs.Answer.{read_answer, read_slots};
ghost use Rattle.spaces.specs.Answer.{space_report};
ghost use Rattle.doors.specs.Door.{door_refusal, door_report, door_slice};

use format_source::format_source_with_shebang;
use format_tokens::format_tokens_with;
use pieces::read_pieces;
use rows::OptionNumbers;
use shared::refusal::Refusal;
use shared::report::{REPORT_BYTES, put_report, report_answer};
use sheet::read_sheet;
use spaces::needs_space;

mod answers;

// Lays out the tokens that `rows` name in `text` into `out`, in style 0 (SameLine) or 1 (Allman). Reports the
// length, the number of inserted commas and plain.
#[unsafe(no_mangle)]
pub extern "C" fn rl_layout(
    style: u32,
    indent_width: u32,
    signature_width: u32,
    list_width: u32,
    rows: &[u8],
    text: &[u8],
    out: &mut [u8],
    report: &mut [u8],
) -> u32
    ensures refusal { result
        ≡ door_refusal report.old (layout style indent_width signature_width list_width
        rows.now text.now out.old).report }
    ensures report { report.new
        ≡ door_report report.old (layout style indent_width signature_width list_width
        rows.now text.now out.old).report }
    ensures out { out.new
        ≡ door_slice report.old out.old (layout style indent_width signature_width
        list_width rows.now text.now out.old).out }
{
    if report.len() != REPORT_BYTES {
        return Refusal::BadReport.number();
    }
    let options = OptionNumbers {
        style,
        indent_width,
        signature_width,
        list_width,
    };
    let laid = format_tokens_with(rows, text, out, options);
    put_report(report, report_answer(answers::of_layout(laid)))
}

// Lays out the tokens with the default options, after the shebang line of `source` where it has one. Reports
// as `rl_layout` does.
#[unsafe(no_mangle)]
pub extern "C" fn rl_layout_source(
    source: &[u8],
    rows: &[u8],
    text: &[u8],
    out: &mut [u8],
    report: &mut [u8],
) -> u32
    ensures refusal { result
        ≡ door_refusal report.old (layout_source source.now rows.now
        text.now out.old).report }
    ensures report { report.new
        ≡ door_report report.old (layout_source source.now rows.now
        text.now out.old).report }
    ensures out { out.new
        ≡ door_slice report.old out.old (layout_source source.now
        rows.now text.now out.old).out }
{
    if report.len() != REPORT_BYTES {
        return Refusal::BadReport.number();
    }
    let laid = format_source_with_shebang(source, rows, text, out);
    put_report(report, report_answer(answers::of_layout(laid)))
}

// Reads `sheet` into `rows`, and their texts into `text`. Reports the number of rows, that of the texts'
// bytes and 0.
#[unsafe(no_mangle)]
pub extern "C" fn rl_read_sheet(
    sheet: &[u8],
    rows: &mut [u8],
    text: &mut [u8],
    report: &mut [u8],
) -> u32
    ensures refusal { result
        ≡ door_refusal report.old
        (sheet_answer sheet.now (length rows.old) (length text.old)) }
    ensures report { report.new
        ≡ door_report report.old
        (sheet_answer sheet.now (length rows.old) (length text.old)) }
    ensures rows { rows.new
        ≡ door_slice report.old rows.old
        (sheet_rows sheet.now rows.old text.old) }
    ensures text { text.new
        ≡ door_slice report.old text.old
        (sheet_text sheet.now rows.old text.old) }
{
    if report.len() != REPORT_BYTES {
        return Refusal::BadReport.number();
    }
    let answer = answers::of_sheet(read_sheet(sheet, rows, text));
    put_report(report, report_answer(answer))
}

// Reads `text` back, and puts the start and the end of each piece into `pieces`. Reports the number of
// pieces, 0 and 0.
#[unsafe(no_mangle)]
pub extern "C" fn rl_read_pieces(text: &[u8], pieces: &mut [u32], report: &mut [u8]) -> u32
    ensures refusal { result
        ≡ door_refusal report.old
        (read_answer text.now (length pieces.old)) }
    ensures report { report.new
        ≡ door_report report.old (read_answer text.now (length pieces.old)) }
    ensures pieces { pieces.new
        ≡ door_slice report.old pieces.old
        (read_slots text.now pieces.old) }
{
    if report.len() != REPORT_BYTES {
        return Refusal::BadReport.number();
    }
    let answer = answers::of_pieces(read_pieces(text, pieces));
    put_report(report, report_answer(answer))
}

// Finds whether a space is needed between tokens of two kinds. Reports 1 or 0, 0 and 0.
#[unsafe(no_mangle)]
pub extern "C" fn rl_needs_space(first: u32, second: u32, report: &mut [u8]) -> u32
    ensures refusal { result ≡ door_refusal report.old (space_report first second) }
    ensures report { report.new
        ≡ door_report report.old (space_report first second) }
{
    if report.len() != REPORT_BYTES {
        return Refusal::BadReport.number();
    }
    let answer = answers::of_space(needs_space(first, second));
    put_report(report, report_answer(answer))
}
