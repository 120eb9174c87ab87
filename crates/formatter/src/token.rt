// Which rows are a token's, and what all rows tell.
ghost use Rattle.std.specs.Prelude.{◌≡◌, ◌+◌, ◌-◌, ◌*◌, ◌/◌, ◌≤◌, length, drop};
ghost use Rattle.rows.specs.Checks.{most_rows, most_row_bytes};
ghost use Rattle.rows.specs.KindNumber.{what_number};
ghost use Rattle.rows.specs.Row.{row_size, rows_of};
ghost use Rattle.formatter.specs.Format.{Ending, NextToken, TokenRows, run_rows, own_row, next_row};

use crate::{Ends, TokenAt};
use lookahead::{after_last, total_width};
use rows::{Kind, ROW_BYTES, Rows, What, row_at};

// Where a token's rows start, and its index among the tokens.
#[derive(Clone, Copy)]
pub struct Place {
    pub at: usize,
    pub index: u32,
}

// From this list width on, all tokens are measured together; below it, a list's measure ends within so many
// tokens.
const WIDE: u32 = 1024;

// Up to this many bytes of rows nothing is looked for: in 64 rows each lookahead is short.
const FEW: usize = 1024;

// Finds the token whose rows start at `lead`, which has this index. Where `bare` is true, that is its own row
// alone.
pub fn token_at(rows: &[u8], lead: usize, index: u32, bare: bool) -> TokenAt
    requires { NextToken rows.now lead bare }
    ensures { TokenRows rows.now lead index result }
{
    if bare {
        return token_of(rows, lead, lead, lead + ROW_BYTES, index);
    }
    let own = rows_end(rows, lead, What::Leading);
    let next = rows_end(rows, own + ROW_BYTES, What::Trailing);
    token_of(rows, lead, own, next, index)
}

// The token of these three rows.
fn token_of(rows: &[u8], lead: usize, own: usize, next: usize, index: u32) -> TokenAt
    requires row_size_in_bounds { own + row_size ≤ length rows.now }
    requires own_value { (own ≡ own_row rows.now lead) × (next ≡ next_row rows.now own) }
    ensures { TokenRows rows.now lead index result }
{
    TokenAt {
        kind: row_at(rows, own).kind,
        index,
        lead,
        own,
        next,
    }
}

// Returns the index after the rows of this what that start at `at`.
fn rows_end(rows: &[u8], at: usize, what: What) -> usize
    requires { at ≤ length rows.now }
    ensures { result ≡ at + row_size * run_rows (what_number what) (rows_of (drop at rows.now)) }
{
    let mut end = at;
    // `take_while` and `count`, or `position`, take 4 in 100 more where there are comments.
    for row in Rows::of(&rows[at..]) {
        if row.what != what as u32 {
            return end;
        }
        end += ROW_BYTES;
    }
    end
}

// Finds where the last Comma and the last `}` stand in the rows, and how wide all tokens are. Few rows are
// not searched.
#[tactic(auto, using(lookahead::proofs::Lacks::none_after, lookahead::proofs::Narrow::width_part))]
pub fn ends_of(rows: &[u8], list_width: u32) -> Ends
    requires { length rows.now ≤ most_row_bytes }
    ensures { Ending rows.now result }
{
    if rows.len() <= FEW {
        return ends_not_sought(rows);
    }
    let commas = after_last(rows, Kind::Comma as u32);
    let braces = after_last(rows, Kind::RightBrace as u32);
    if list_width < WIDE {
        return Ends {
            commas,
            braces,
            width: 0,
        };
    }
    let width = total_width(rows);
    Ends {
        commas,
        braces,
        width,
    }
}

// What is told of rows in which nothing was looked for.
#[tactic(auto, using(lookahead::proofs::Lacks::none_left))]
pub fn ends_not_sought(rows: &[u8]) -> Ends
    ensures { Ending rows.now result }
{
    Ends {
        commas: rows.len(),
        braces: rows.len(),
        width: 0,
    }
}

// Returns the place of the row at `at`, where from `place` up to there each row is a token of its own.
pub fn place_at(place: Place, at: usize) -> Place
    requires { (place.at ≤ at) × (at ≤ most_row_bytes)
        × (place.index + (at - place.at) / row_size ≤ most_rows) }
    ensures { (result.at ≡ at) × (result.index ≡ place.index + (at - place.at) / row_size) }
{
    let passed = (at - place.at) / ROW_BYTES;
    let index = place.index + passed as u32;
    Place { at, index }
}
