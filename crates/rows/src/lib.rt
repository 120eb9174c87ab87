// The rows that the lexer sends, and the checks that come before a layout (specification, 'Rows').
#![tactic(auto)]

ghost use Rattle.std.specs.Prelude.{true, ◌≡◌, ◌+◌, ◌≤◌, ◌<◌, ◌%◌, eqb, ltb, length, min, MatchOption, Some, ⊤};
ghost use Rattle.rows.specs.Kinds.{TokenRow, Trailing, BlockComment, BlankLine, Other};
ghost use Rattle.rows.specs.KindNumber.{what_number, trivia_number, kind_number};
ghost use Rattle.std.specs.Iterator.{YieldsFirstBy, YieldsLastBy, item_count};
ghost use Rattle.rows.specs.Row.{row_size, number, row_at, rows_of};
ghost use Rattle.rows.specs.Checks.{may_trail, misnamed, bad_row, GoodRows};
ghost use Rattle.rows.specs.KindNumber.{before_of};
ghost use Rattle.rows.specs.Bounds.{row_of};
ghost use Rattle.rows.specs.Answer.{reported, refusal_of, refusal_text, check_report, rows_report, each_row_report};
ghost use Rattle.shared.specs.Report.{refuse, refusal_number};

pub mod kind;
pub mod options;

pub use kind::{Kind, KindSet, Trivia, What};
pub use options::OptionNumbers;
use shared::refusal::{Refusal, Refused};
use std::alloc::AllocError;
use std::error::Error;
use std::fmt;

// What the checks of the options and the rows refuse.
#[derive(Clone, Copy, Debug, PartialEq, Eq)]
pub enum CheckError {
    // Refusal 1: the option at this position, 0 to 3, is out of bounds.
    BadOption { position: usize },
    // Refusal 2: the bytes are no whole rows, or there are more than `MOST_ROWS`.
    RaggedRows,
    // Refusal 3: this row is bad, or it is the last row and leads no token.
    BadRow { row: usize },
}

impl From<CheckError> for Refused {
    ghost from_gives = { λ e r. refuse (refusal_number r.refusal) r.place ≡ refusal_of e };

    fn from(error: CheckError) -> Refused {
        match error {
            CheckError::BadOption { position } => Refused {
                refusal: Refusal::BadOption,
                place: position,
            },
            CheckError::RaggedRows => Refused {
                refusal: Refusal::RaggedRows,
                place: 0,
            },
            CheckError::BadRow { row } => Refused {
                refusal: Refusal::BadRow,
                place: row,
            },
        }
    }
}

// The refusal's number and its place.
impl fmt::Display for CheckError {
    ghost output = { λ e. Some (refusal_text e) };

    fn fmt<W: fmt::Write>(&self, f: &mut fmt::Formatter<W>) -> fmt::Result {
        Refused::from(*self).fmt(f)
    }
}

impl Error for CheckError {}

// Looks for refusals 1, 2 and 3 in that order, and answers the first that it finds.
pub fn check(options: OptionNumbers, rows: &[u8], text: &[u8]) -> Result<(), CheckError>
    ensures { reported result
        ≡ check_report options.style options.indent_width options.signature_width options.list_width
        rows.now (length text.now) }
{
    check_unless_known(options, rows, text, false)
}

// Answers what `check` answers. Where `good` is true, no row is bad, and none is looked at.
#[tactic(auto, unfolding(crate::specs::Answer::check_report, crate::specs::Options::bad_option))]
pub fn check_unless_known(
    options: OptionNumbers,
    rows: &[u8],
    text: &[u8],
    good: bool,
) -> Result<(), CheckError>
    requires { good ≡ true → GoodRows rows.now (length text.now) }
    ensures { reported result
        ≡ check_report options.style options.indent_width options.signature_width options.list_width
        rows.now (length text.now) }
{
    if options::MOST_STYLE < options.style {
        return Err(CheckError::BadOption { position: 0 });
    }
    if options::MOST_INDENT_WIDTH < options.indent_width {
        return Err(CheckError::BadOption { position: 1 });
    }
    if options::MOST_WIDTH < options.signature_width {
        return Err(CheckError::BadOption { position: 2 });
    }
    if options::MOST_WIDTH < options.list_width {
        return Err(CheckError::BadOption { position: 3 });
    }
    check_rows(rows, text.len(), good)
}

// A row has 16 bytes.
pub const ROW_BYTES: usize = 16;

// A call takes at most 65,535 rows.
pub const MOST_ROWS: usize = 65535;

// What a row is, its kind, and where its bytes start and end in the text.
#[derive(Clone, Copy)]
pub struct Row {
    pub what: u32,
    pub kind: u32,
    pub start: u32,
    pub end: u32,
}

impl Row {
    // Tells whether the row is a token's own.
    pub fn is_token(self) -> bool
        ensures { result ≡ eqb (row_of self).what TokenRow }
    {
        self.what == What::Token as u32
    }

    // Tells whether the row is a blank line, where it is trivia.
    pub fn is_blank_line(self) -> bool
        ensures { result ≡ ltb BlockComment (row_of self).kind }
    {
        self.kind > Trivia::BlockComment as u32
    }

    // Returns what the row is. A number above 2 is nothing.
    pub fn what(self) -> Option<What>
        ensures { MatchOption result (Trailing < (row_of self).what)
            (λ what. what_number what ≡ (row_of self).what) }
    {
        match self.what {
            0 => Some(What::Leading),
            1 => Some(What::Token),
            2 => Some(What::Trailing),
            _ => None,
        }
    }

    // Returns the kind of a token's row. Every number above 34 is `Other`.
    pub fn token_kind(self) -> Kind
        ensures { kind_number result ≡ min (row_of self).kind Other }
    {
        Kind::of(self.kind)
    }

    // Returns the kind of a row of trivia. Every number above 3 is `BlankLine`.
    pub fn trivia(self) -> Trivia
        ensures { trivia_number result ≡ min (row_of self).kind BlankLine }
    {
        match self.kind {
            0 => Trivia::LineComment,
            1 => Trivia::DocComment,
            2 => Trivia::BlockComment,
            _ => Trivia::BlankLine,
        }
    }
}

// The rows of a slice, one after the other. Bytes at its end that are no whole row are passed over.
#[derive(Drop)]
pub struct Rows<'a> {
    rest: &'a [u8],
    // No part of a row is left, so that neither end is rounded again.
    ghost whole: { length rest.now % row_size ≡ 0 },
}

impl<'a> Clone for Rows<'a> {
    ghost is_clone = { λ rows copy. copy ≡ rows };

    ghost is_infallible = { λ _. ⊤ };

    fn clone(&self) -> Result<Self, AllocError> {
        Ok(Rows { rest: self.rest })
    }
}

impl<'a> Rows<'a> {
    ghost use Rattle.rows.specs.RowsLeft.{rows_left};

    #[tactic(auto, using(crate::proofs::RowList::whole_rows))]
    pub fn of(rows: &'a [u8]) -> Self
        ensures { rows_left result ≡ rows_of rows.now }
    {
        let whole = rows.len() - rows.len() % ROW_BYTES;
        Rows {
            rest: &rows[..whole],
        }
    }

    // Answers how many rows are left.
    #[tactic(auto, using(crate::proofs::RowList::rows_length))]
    pub fn len(&self) -> usize
        ensures { result ≡ length (rows_left self.now) }
    {
        self.rest.len() / ROW_BYTES
    }
}

impl<'a> Iterator for Rows<'a> {
    ghost use Rattle.rows.specs.RowsLeft.{rows_left};

    type Item = Row;

    ghost next_gives = { YieldsFirstBy row_of rows_left };

    ghost remaining = { item_count rows_left };

    #[tactic(auto, using(crate::proofs::RowList::first_left, crate::proofs::RowList::rows_none))]
    fn next(&mut self) -> Option<Row> {
        if self.rest.is_empty() {
            return None;
        }
        let row = row_at(self.rest, 0);
        self.rest = &self.rest[ROW_BYTES..];
        Some(row)
    }
}

impl<'a> DoubleEndedIterator for Rows<'a> {
    ghost use Rattle.rows.specs.RowsLeft.{rows_left};

    ghost next_back_gives = { YieldsLastBy row_of rows_left };

    #[tactic(auto, using(crate::proofs::RowList::from_back))]
    fn next_back(&mut self) -> Option<Row> {
        if self.rest.is_empty() {
            return None;
        }
        let end = self.rest.len();
        let row = row_at(self.rest, end - ROW_BYTES);
        self.rest = &self.rest[..end - ROW_BYTES];
        Some(row)
    }
}

// Returns the row whose bytes start at index `at`.
pub fn row_at(rows: &[u8], at: usize) -> Row
    requires { at + row_size ≤ length rows.now }
    ensures { row_of result ≡ row_at rows.now at }
{
    Row {
        what: number_at(rows, at),
        kind: number_at(rows, at + 4),
        start: number_at(rows, at + 8),
        end: number_at(rows, at + 12),
    }
}

// Returns the 32-bit number, lowest byte first, at index `at`. It compiles to one load.
pub fn number_at(bytes: &[u8], at: usize) -> u32
    requires { at + 4 ≤ length bytes.now }
    ensures { result ≡ number bytes.now at }
{
    u32::from_le_bytes([bytes[at], bytes[at + 1], bytes[at + 2], bytes[at + 3]])
}

// Looks for refusals 2 and 3 in that order. The text has `size` bytes; where `good` is true, no row is bad.
#[tactic(auto, unfolding(crate::specs::Answer::rows_report, crate::specs::Answer::each_row_report))]
fn check_rows(rows: &[u8], size: usize, good: bool) -> Result<(), CheckError>
    requires { good ≡ true → GoodRows rows.now size }
    ensures { reported result ≡ rows_report rows.now size }
{
    if rows.len() % ROW_BYTES != 0 || MOST_ROWS < rows.len() / ROW_BYTES {
        return Err(CheckError::RaggedRows);
    }
    if good {
        return Ok(());
    }
    check_each_row(rows, size)
}

// Looks for refusal 3: the first bad row, or else the last row where it is a leading row.
#[tactic(auto, using(crate::proofs::Checking::orphaned, crate::proofs::Checking::good))]
fn check_each_row(rows: &[u8], size: usize) -> Result<(), CheckError>
    ensures { reported result ≡ each_row_report rows.now size }
{
    let mut before = None;
    for (i, row) in Rows::of(rows).enumerate() {
        if is_bad(row, before, size) {
            return Err(CheckError::BadRow { row: i });
        }
        before = row.what();
    }
    if before == Some(What::Leading) {
        return Err(CheckError::BadRow {
            row: rows.len() / ROW_BYTES - 1,
        });
    }
    Ok(())
}

// Tells whether a row is bad that follows one of the what `before`, where the text has `size` bytes.
fn is_bad(row: Row, before: Option<What>, size: usize) -> bool
    ensures { result ≡ bad_row size (before_of before) (row_of row) }
{
    match row.what() {
        None => true,
        Some(What::Leading) => misnames(row, Trivia::BlankLine as u32, size),
        Some(What::Token) => misnames(row, Kind::Other as u32, size),
        Some(What::Trailing) => misnames(row, Trivia::BlankLine as u32, size) || !may_trail(before),
    }
}

// Tells whether a row has a kind above `top`, or names no bytes of a text of `size` bytes.
pub fn misnames(row: Row, top: u32, size: usize) -> bool
    ensures { result ≡ misnamed top size (row_of row) }
{
    top < row.kind || row.end < row.start || size < row.end as usize
}

// Tells whether a trailing row may follow a row of the what `before`.
fn may_trail(before: Option<What>) -> bool
    ensures { result ≡ may_trail (before_of before) }
{
    matches!(before, Some(What::Token | What::Trailing))
}
