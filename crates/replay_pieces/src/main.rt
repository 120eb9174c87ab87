// Reads stored texts back and writes each answer, the count of pieces and the slice after the call.
// tests/make_replay_pieces.py makes the texts and, by its own reading of the specification, what is expected.
#![tactic(auto)]

use console::{Left, read_full, replay};
use piece_reader::count_pieces;
use pieces::read_pieces;
use shared::refusal::Refused;
use std::io;

fn main(rt: HostRuntime) -> io::Result<()> {
    let mut input = [0u8; 65536];
    let size = read_full(&mut rt.reader(), &mut input)?;
    replay(&input[..size], |left| replay_case(&rt, left))
}

// Replays the next case, and returns whether it was whole. A case is two lines: how many numbers the slice
// has and how many bytes the text, three digits each; then the text and a line feed.
fn replay_case(rt: &impl Print, left: &mut Left<'_>) -> io::Result<bool> {
    let Some((slots, text)) = take_case(left) else {
        return Ok(false);
    };
    // It is filled with 7 before the call, so that what is unchanged can be told from what is zeroed.
    let mut numbers = [7u32; 64];
    if let Some(numbers) = numbers.get_mut(..slots) {
        read_into(rt, text, numbers)?;
    }
    Ok(true)
}

fn take_case<'a>(left: &mut Left<'a>) -> Option<(usize, &'a [u8])> {
    let slots = take_number(left)?;
    let length = take_number(left)?;
    let text = left.take(length)?;
    // The last line feed may be missing.
    let _ = left.take(1);
    Some((slots, text))
}

// Takes a line with a number.
fn take_number(left: &mut Left<'_>) -> Option<usize> {
    let number = left.fixed_number(3)?;
    left.take(1)?;
    Some(number as usize)
}

// Writes a line: the answer of `read_pieces`, that of `count_pieces`, and the slice after the call.
fn read_into(rt: &impl Print, text: &[u8], numbers: &mut [u32]) -> io::Result<()> {
    print_answer(rt, read_pieces(text, numbers).map_err(Refused::from))?;
    print!(rt; ", ")?;
    print_answer(rt, count_pieces(text).map_err(Refused::from))?;
    print!(rt; ":")?;
    for number in numbers {
        print!(rt; " {number}")?;
    }
    println!(rt)
}

// Writes an answer as its refusal, or 0, and its number.
fn print_answer(rt: &impl Print, answer: Result<usize, Refused>) -> io::Result<()> {
    match answer {
        Ok(count) => print!(rt; "0 {count}"),
        Err(refused) => print!(rt; "{refused}"),
    }
}
