// Lays out stored lists and writes each answer with the output after it.
// tests/make_replay_layout.py makes them and, from format.rs and from the specification, what is expected.
#![tactic(auto)]

use console::{Left, buffer, read_full, replay};
use format_source::format_source_with_shebang;
use format_tokens::{LayoutError, Text, format_tokens_with};
use rows::{OptionNumbers, ROW_BYTES};
use shared::refusal::Refused;
use std::io;

fn main(rt: HostRuntime) -> io::Result<()> {
    let mut input = buffer::<1048576>();
    // Room for 65,536 rows, one more than a layout takes.
    let mut rows = buffer::<1048576>();
    let mut out = [0u8; 65536];
    let size = read_full(&mut rt.reader(), &mut input)?;
    replay(
        &input[..size],
        |left| replay_case(&rt, left, &mut rows, &mut out),
    )
}

// Which call a case makes.
#[derive(Clone, Copy)]
enum Call {
    // `format_tokens_with`, with these options.
    Layout { options: OptionNumbers },
    // `format_source_with_shebang`.
    Source,
}

// A case: the call, and what it is given.
#[derive(Clone, Copy)]
struct Case<'a> {
    call: Call,
    row_bytes: usize,
    text: &'a [u8],
    source: &'a [u8],
    out_size: usize,
}

// Replays the next case, and returns whether it was whole.
fn replay_case(
    rt: &impl Print,
    left: &mut Left<'_>,
    rows: &mut [u8],
    out: &mut [u8],
) -> io::Result<bool> {
    let Some(case) = take_case(left, rows) else {
        return Ok(false);
    };
    replay_call(rt, case, rows, out)?;
    Ok(true)
}

// Takes the next case, whose rows go into `rows`. A case is a letter for the call (L `format_tokens_with`, S
// `format_source_with_shebang`), the four options, the sizes of the output and of the rows, in bytes, how many
// rows stand in the case, which are repeated until their size is reached, the sizes of the text and of the
// source, the rows, the text, the source and a line feed. Numbers are decimal, each with one byte after it.
fn take_case<'a>(left: &mut Left<'a>, rows: &mut [u8]) -> Option<Case<'a>> {
    let letter = *left.take(2)?.first()?;
    let options = OptionNumbers {
        style: left.wrapping_number(),
        indent_width: left.wrapping_number(),
        signature_width: left.wrapping_number(),
        list_width: left.wrapping_number(),
    };
    let out_size = left.wrapping_number() as usize;
    let row_bytes = left.wrapping_number() as usize;
    let row_count = left.wrapping_number() as usize;
    let text_size = left.wrapping_number() as usize;
    let source_size = left.wrapping_number() as usize;
    take_rows(left, row_count, rows, row_bytes)?;
    let text = left.take(text_size)?;
    let source = left.take(source_size)?;
    left.take(1)?;
    let call = if letter == b'S' {
        Call::Source
    } else {
        Call::Layout { options }
    };
    Some(Case {
        call,
        row_bytes,
        text,
        source,
        out_size,
    })
}

// Takes so many rows into the first places of `rows`, four numbers each, and repeats them up to `size`.
fn take_rows(left: &mut Left<'_>, count: usize, rows: &mut [u8], size: usize) -> Option<()> {
    let taken = count.checked_mul(ROW_BYTES)?;
    for number in rows.get_mut(..taken)?.chunks_exact_mut(4) {
        number.copy_from_slice(&left.wrapping_number().to_le_bytes());
    }
    let used = rows.get_mut(..size)?;
    if let Some((first, others)) = used.split_at_mut_checked(taken) {
        repeat(first, others);
    }
    Some(())
}

// Repeats what stands in `first` until `others` is full.
fn repeat(first: &[u8], others: &mut [u8]) {
    if first.is_empty() {
        return;
    }
    for part in others.chunks_mut(first.len()) {
        for (to, from) in part.iter_mut().zip(first.iter()) {
            *to = *from;
        }
    }
}

// Makes the call. The output is filled before it, so that what is unchanged can be told from what is zeroed.
fn replay_call(rt: &impl Print, case: Case<'_>, rows: &[u8], out: &mut [u8]) -> io::Result<()> {
    let Some(rows) = rows.get(..case.row_bytes) else {
        return Ok(());
    };
    let Some(out) = out.get_mut(..case.out_size) else {
        return Ok(());
    };
    out.fill(b'~');
    let answer = match case.call {
        Call::Source => format_source_with_shebang(case.source, rows, case.text, out),
        Call::Layout { options } => format_tokens_with(rows, case.text, out, options),
    };
    print_answer(rt, answer)?;
    rt.write_all(out)?;
    println!(rt)
}

// Writes the refusal, or 0, and the report's three numbers.
fn print_answer(rt: &impl Print, answer: Result<Text, LayoutError>) -> io::Result<()> {
    match answer {
        Ok(
            Text {
                length,
                commas,
                plain,
            },
        ) => println!(rt; "0 {length} {commas} {}", u8::from(plain)),
        Err(error) => println!(rt; "{} 0 0", Refused::from(error)),
    }
}
