// The program (specification, 'The program'): what `layout` does with a sheet on standard input.
#![tactic(auto)]

use console::read_full;
use format_tokens::{LayoutError, Text, format_tokens_with};
use rows::{OptionNumbers, ROW_BYTES, options};
use shared::refusal::Refused;
use sheet::{SheetSize, read_sheet};
use std::io;

// Reads a sheet, lays it out with the default options and writes the answer and the text.
pub fn lay_out_sheet(rt: &(impl Input + Print)) -> io::Result<()> {
    let mut sheet = [0u8; 65536];
    let mut rows = [0u8; 65536];
    let mut text = [0u8; 65536];
    let mut out = [0u8; 65536];
    let size = read_full(&mut rt.reader(), &mut sheet)?;
    match read_sheet(&sheet[..size], &mut rows, &mut text) {
        Ok(read) => lay_out(rt, read, &rows, &text, &mut out),
        Err(error) => print_refusal(rt, error.into()),
    }
}

// Lays out the rows and texts that a sheet was read into, by the default options, and writes the answer and the
// text. The sheet reader's sizes lie in its slices.
fn lay_out(
    rt: &impl Print,
    read: SheetSize,
    rows: &[u8],
    text: &[u8],
    out: &mut [u8],
) -> io::Result<()> {
    let Some(rows) = rows.get(..ROW_BYTES.saturating_mul(read.rows)) else {
        return Ok(());
    };
    let Some(text) = text.get(..read.text_bytes) else {
        return Ok(());
    };
    let options = OptionNumbers {
        style: options::DEFAULT_STYLE,
        indent_width: options::DEFAULT_INDENT_WIDTH,
        signature_width: options::DEFAULT_WIDTH,
        list_width: options::DEFAULT_WIDTH,
    };
    let answer = format_tokens_with(rows, text, out, options);
    print_answer(rt, answer, out)
}

// Writes the text that stands first in `out`, with what the answer tells of it, or the refusal and its place.
fn print_answer(rt: &impl Print, answer: Result<Text, LayoutError>, out: &[u8]) -> io::Result<()> {
    match answer {
        Ok(text) => print_text(rt, text, out),
        Err(error) => print_refusal(rt, error.into()),
    }
}

fn print_text(rt: &impl Print, text: Text, out: &[u8]) -> io::Result<()> {
    let Some(bytes) = out.get(..text.length) else {
        return Ok(());
    };
    let mark = u8::from(text.plain);
    println!(rt;
        "length commas plain\n{} {} {mark}",
        text.length, text.commas
    )?;
    rt.write_all(bytes)
}

// Writes a refusal and its place.
fn print_refusal(rt: &impl Print, refused: Refused) -> io::Result<()> {
    println!(rt; "refusal place\n{refused}")
}
