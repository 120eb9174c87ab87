// Runs the checks, the decision on a space and the lookaheads on stored rows, and writes each answer.
// tests/make_replay_rows.py makes the rows and, by its own reading of format.rs and the specification, what
// is expected.
#![tactic(auto)]

use console::{Left, buffer, read_full, replay};
use lookahead::{
    block_is_single_line, group_measure, next_has_comment, should_break_list, should_break_sig,
    sig_measure,
};
use rows::{OptionNumbers, ROW_BYTES, check};
use shared::refusal::Refused;
use spaces::needs_space;
use std::io;

fn main(rt: HostRuntime) -> io::Result<()> {
    print_spaces(&rt)?;
    let mut input = buffer::<262144>();
    let size = read_full(&mut rt.reader(), &mut input)?;
    replay(&input[..size], |left| replay_case(&rt, left))
}

// Writes for every pair of the kinds 0 to 36 whether a space is needed, or the place of an unknown kind.
fn print_spaces(rt: &impl Print) -> io::Result<()> {
    for first in 0..37 {
        for second in 0..37 {
            print_refused(rt, needs_space(first, second).map_err(Refused::from))?;
        }
        println!(rt)?;
    }
    Ok(())
}

// Writes the refusal, or 0, and its place, or whether it is so.
fn print_refused(rt: &impl Print, answer: Result<bool, Refused>) -> io::Result<()> {
    match answer {
        Ok(holds) => print!(rt; " 0 {};", u8::from(holds)),
        Err(refused) => print!(rt; " {refused};"),
    }
}

// A case: the four options, the text's size, the rows, and how many lookaheads are run.
#[derive(Clone, Copy)]
struct Case<'a> {
    options: OptionNumbers,
    text_size: usize,
    rows: &'a [u8],
    call_count: usize,
}

// Replays the next case, and returns whether its rows were whole. The input may end before its last
// lookaheads.
fn replay_case(rt: &impl Print, left: &mut Left<'_>) -> io::Result<bool> {
    let Some(case) = take_case(left) else {
        return Ok(false);
    };
    print_check(rt, case)?;
    for _ in 0..case.call_count {
        let Some((call, row)) = take_call(left) else {
            break;
        };
        print_lookahead(rt, case, call, row)?;
    }
    println!(rt)?;
    Ok(true)
}

// Takes the next case but its lookaheads: its numbers and the rows.
fn take_case<'a>(left: &mut Left<'a>) -> Option<Case<'a>> {
    let options = OptionNumbers {
        style: left.number_32()?,
        indent_width: left.number_32()?,
        signature_width: left.number_32()?,
        list_width: left.number_32()?,
    };
    let text_size = left.number_32()? as usize;
    let size = left.number_32()? as usize;
    let call_count = left.number_32()? as usize;
    let rows = left.take(size)?;
    Some(Case {
        options,
        text_size,
        rows,
        call_count,
    })
}

fn print_check(rt: &impl Print, case: Case<'_>) -> io::Result<()> {
    let text = [0u8; 4096];
    let Some(text) = text.get(..case.text_size) else {
        return Ok(());
    };
    let checked = check(case.options, case.rows, text);
    print_refused(rt, checked.map(|()| false).map_err(Refused::from))
}

// Which lookahead a case runs.
#[derive(Clone, Copy)]
enum Lookahead {
    Signature,
    List,
    Block,
    Comment,
    // None of the four.
    Unknown,
}

// Takes a lookahead, two numbers: which it is, and the row from which on the rows are given to it.
fn take_call(left: &mut Left<'_>) -> Option<(Lookahead, usize)> {
    let call = match left.number_32()? {
        0 => Lookahead::Signature,
        1 => Lookahead::List,
        2 => Lookahead::Block,
        3 => Lookahead::Comment,
        _ => Lookahead::Unknown,
    };
    Some((call, left.number_32()? as usize))
}

fn print_lookahead(rt: &impl Print, case: Case<'_>, call: Lookahead, row: usize) -> io::Result<()> {
    let Some(rows) = case.rows.get(row.saturating_mul(ROW_BYTES)..) else {
        return Ok(());
    };
    match call {
        Lookahead::Signature => {
            let m = sig_measure(rows);
            let breaks = u8::from(should_break_sig(rows, case.options.signature_width));
            print!(rt; " {} {} {breaks};", m.params, m.width)
        }
        Lookahead::List => {
            let m = group_measure(rows);
            let breaks = u8::from(should_break_list(rows, case.options.list_width));
            print!(rt; " {} {} {breaks};", m.commas, m.width)
        }
        Lookahead::Block => print!(rt; " {};", u8::from(block_is_single_line(rows))),
        Lookahead::Comment => print!(rt; " {};", u8::from(next_has_comment(rows))),
        Lookahead::Unknown => print!(rt; ";"),
    }
}
