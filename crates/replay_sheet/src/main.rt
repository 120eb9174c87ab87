// Reads stored sheets and writes each answer with the two slices after it.
// tests/make_replay_sheet.py makes the sheets and, by its own reading of the specification, what is expected.
#![tactic(auto)]

use console::Left;
use shared::refusal::Refused;
use sheet::{SheetSize, read_sheet};
use std::io;
use std::io::{ErrorKind, Read};

fn main(rt: HostRuntime) -> io::Result<()> {
    let mut sheet = [0u8; 65536];
    let mut rows = [0u8; 65536];
    let mut text = [0u8; 65536];
    let mut input = rt.reader();
    // A proved loop has to end, and nothing says that the input does: so it takes so many cases at most.
    for _ in 0..65536 {
        if !replay_case(&rt, &mut input, &mut sheet, &mut rows, &mut text)? {
            break;
        }
    }
    Ok(())
}

// A case: how many bytes the rows and the text have, and the sheet.
#[derive(Clone, Copy)]
struct Case<'a> {
    row_space: usize,
    text_space: usize,
    sheet: &'a [u8],
}

// Reads one case and replays it before the next is read, and returns whether it was whole and there was room
// for it. The slices are filled before the call, so that what is unchanged can be told from what is zeroed.
fn replay_case(
    rt: &impl Print,
    input: &mut impl Read,
    sheet: &mut [u8],
    rows: &mut [u8],
    text: &mut [u8],
) -> io::Result<bool> {
    let Some(case) = read_case(input, sheet)? else {
        return Ok(false);
    };
    let Some(rows) = rows.get_mut(..case.row_space) else {
        return Ok(false);
    };
    let Some(text) = text.get_mut(..case.text_space) else {
        return Ok(false);
    };
    rows.fill(b'.');
    text.fill(b'.');
    match read_sheet(case.sheet, rows, text) {
        Ok(SheetSize { rows, text_bytes }) => println!(rt; "0 {rows} {text_bytes}")?,
        Err(error) => println!(rt; "{} 0", Refused::from(error))?,
    }
    rt.write_all(rows)?;
    println!(rt)?;
    rt.write_all(text)?;
    println!(rt)?;
    Ok(true)
}

// Reads the next case into `sheet`, if a whole one is there and has room: a line with three numbers of five
// digits, how many bytes the rows, the text and the sheet have, and then the sheet with a line feed.
fn read_case<'a>(input: &mut impl Read, sheet: &'a mut [u8]) -> io::Result<Option<Case<'a>>> {
    let mut head = [0u8; 18];
    if !read_whole(input, &mut head)? {
        return Ok(None);
    }
    let Some((row_space, text_space, length)) = head_numbers(&head) else {
        return Ok(None);
    };
    let Some(sheet) = sheet.get_mut(..=length) else {
        return Ok(None);
    };
    if !read_whole(input, sheet)? {
        return Ok(None);
    }
    Ok(Some(Case {
        row_space,
        text_space,
        sheet: &sheet[..length],
    }))
}

// Returns the three numbers of a case's line.
fn head_numbers(head: &[u8]) -> Option<(usize, usize, usize)> {
    let mut left = Left { bytes: head };
    let row_space = take_number(&mut left)?;
    let text_space = take_number(&mut left)?;
    let length = take_number(&mut left)?;
    Some((row_space, text_space, length))
}

// Takes a number of five digits, and the byte after it.
fn take_number(left: &mut Left<'_>) -> Option<usize> {
    let number = left.fixed_number(5)?;
    left.take(1)?;
    Some(number as usize)
}

// Fills `bytes` with the input's next ones, and returns whether there were so many.
fn read_whole(input: &mut impl Read, bytes: &mut [u8]) -> io::Result<bool> {
    match input.read_exact(bytes) {
        Ok(()) => Ok(true),
        Err(e) if e.kind() == ErrorKind::UnexpectedEof => Ok(false),
        Err(e) => Err(e),
    }
}
