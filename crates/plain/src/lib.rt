// The plain mark (specification, 'The plain mark'), in one pass over the rows, which looks for bad rows too.
// Nothing is kept of the rows that were passed: a clause that asks for them looks back, over as many rows as
// lie between.
#![tactic(auto)]

ghost use Rattle.std.specs.Prelude.{true, ◌≡◌, ◌+◌, ◌≤◌, length};
ghost use Rattle.rows.specs.Checks.{GoodRows};
ghost use Rattle.rows.specs.Row.{row_size};
ghost use Rattle.rows.specs.Token.{tokens_of};
ghost use Rattle.definition.specs.Plain.{plain};
ghost use Rattle.plain.specs.LookBack.{good_and_fits, Ahead, Unfit, FitsTo};

use crate::before::{Token, is_free};
use rows::{Kind, ROW_BYTES, misnames, row_at};

mod before;
mod blocks;
mod lexeme;
mod words;

// Whether the tokens that the rows name in the text are plain. Where a row is bad the answer is no.
pub fn plain_mark(rows: &[u8], text: &[u8]) -> bool
    ensures good { result ≡ true → GoodRows rows.now (length text.now) }
    ensures mark { GoodRows rows.now (length text.now)
        → result ≡ plain (tokens_of rows.now text.now) }
{
    let mut at = fit_end(rows, text, 0); // no `for`: it says where the next row is
    while ROW_BYTES <= rows.len() - at {
        if !row_fits(rows, text, at) {
            return false;
        }
        at = fit_end(rows, text, at + ROW_BYTES);
    }
    true
}

// The index after the rows from `from` on that fit by quick tests. Of the row on which it stops it is not
// known whether it fits, but a good row of a kind with a fixed lexeme does not.
fn fit_end(rows: &[u8], text: &[u8], from: usize) -> usize
    requires { Ahead rows.now text.now from }
    ensures { FitsTo rows.now text.now from result }
{
    if rows.len() < ROW_BYTES {
        return from;
    }
    let last = rows.len() - ROW_BYTES;
    let mut at = from; // no `for`: the index where it stops is the answer, at the end of the rows too
    while at <= last {
        let row = row_at(rows, at);
        if !row.is_token() {
            return at;
        }
        if misnames(row, Kind::Other as u32, text.len()) {
            return at;
        }
        let token = Token {
            before: &rows[..at],
            text,
            kind: row.token_kind(),
            lexeme: &text[row.start as usize..row.end as usize],
        };
        if !token.fits_quickly() {
            return at;
        }
        at += ROW_BYTES;
    }
    at
}

// Whether the row at `at`, on which the quick tests stopped, is good and fits.
fn row_fits(rows: &[u8], text: &[u8], at: usize) -> bool
    requires { (at + row_size ≤ length rows.now) × Unfit rows.now text.now at }
    ensures { result ≡ good_and_fits rows.now text.now at }
{
    let row = row_at(rows, at);
    if !row.is_token() {
        return false;
    }
    if misnames(row, Kind::Other as u32, text.len()) {
        return false;
    }
    let kind = row.token_kind();
    if !is_free(kind) {
        return false;
    }
    let token = Token {
        before: &rows[..at],
        text,
        kind,
        lexeme: &text[row.start as usize..row.end as usize],
    };
    token.fits_read()
}
