// Whether a row fits after the rows before it: the clauses of the plain mark that look back.
ghost use Rattle.std.specs.Prelude.{true, ltb, List, ◌≡◌, ℕ, ◌≤◌, ◌<◌, min, MatchOption};
ghost use Rattle.rows.specs.Bounds.{row_of};
ghost use Rattle.rows.specs.Kinds.{Comma, Else, Other};
ghost use Rattle.rows.specs.KindNumber.{kind_number};
ghost use Rattle.rows.specs.Row.{number};
ghost use Rattle.definition.specs.Plain.{tight_before, tight_after};
ghost use Rattle.plain.specs.Scan.{mute, fits, forbids, meets, meets_after};
ghost use Rattle.plain.specs.LookBack.{seen, Near, NoneNear};

use crate::lexeme::{
    begins_digit, begins_operator, bracket_of, ends_operator, is_bracket, is_itself, is_operators,
    is_single, is_value, reads_whole,
};
use crate::words::is_words;
use rows::{Kind, ROW_BYTES, Row, number_at, row_at};

// A token of a row: the rows before it, the text, its kind and its lexeme.
#[derive(Clone, Copy)]
pub struct Token<'a> {
    pub before: &'a [u8],
    pub text: &'a [u8],
    pub kind: Kind,
    pub lexeme: &'a [u8],
}

impl Token<'_> {
    // Whether the token fits after the rows before it, by tests that are quicker than reading the lexeme. Yes is
    // certain; no is certain for a kind with a fixed lexeme, Newline and Eof.
    pub fn fits_quickly(self) -> bool
        ensures sure { result ≡ true → fits (seen self.entry.before.now self.entry.text.now)
            (kind_number self.entry.kind) self.entry.lexeme.now ≡ true }
        ensures fixed { kind_number self.entry.kind ≤ Else
            → result ≡ fits (seen self.entry.before.now self.entry.text.now)
            (kind_number self.entry.kind) self.entry.lexeme.now }
    {
        if is_free(self.kind) {
            return self.fits_free();
        }
        self.fits_fixed()
    }

    // The same for a kind with a fixed lexeme, Newline or Eof: the answer is certain.
    fn fits_fixed(self) -> bool
        requires { kind_number self.kind ≤ Else }
        ensures { result ≡ fits (seen self.entry.before.now self.entry.text.now)
            (kind_number self.entry.kind) self.entry.lexeme.now }
    {
        if is_mute(self.kind) {
            return true;
        }
        if is_bracket(self.kind) {
            return is_single(self.lexeme, bracket_of(self.kind))
                && !forbids(self.before, self.kind);
        }
        is_itself(self.kind, self.lexeme) && !(begins_operator(self.lexeme) && self.meets())
    }

    // The same for any other kind. Yes is certain, no is not; most tokens that fit pass.
    fn fits_free(self) -> bool
        requires { Else < kind_number self.kind }
        ensures { result ≡ true → fits (seen self.entry.before.now self.entry.text.now)
            (kind_number self.entry.kind) self.entry.lexeme.now ≡ true }
    {
        if is_words(self.lexeme) {
            return true;
        }
        if is_operators(self.lexeme) {
            return !self.meets();
        }
        is_value(self.lexeme)
    }

    // Whether such a token fits, by reading the lexeme: the answer is certain.
    pub fn fits_read(self) -> bool
        requires { Else < kind_number self.kind }
        ensures { result ≡ fits (seen self.entry.before.now self.entry.text.now)
            (kind_number self.entry.kind) self.entry.lexeme.now }
    {
        reads_whole(self.lexeme) && !(begins_operator(self.lexeme) && self.meets())
    }

    // Whether two operator bytes would meet, or a Dot stands after a digit: clauses 4 and 5, at a lexeme that
    // begins with an operator byte.
    fn meets(self) -> bool
        ensures { result ≡ meets (seen self.entry.before.now self.entry.text.now)
            (kind_number self.entry.kind) }
    {
        let Some(row) = last_written(self.before) else {
            return false;
        };
        let end = self.text.len().min(row.end as usize);
        match self.text.get(row.start as usize..end) {
            Some(lexeme) => meets_after(row.token_kind(), lexeme, self.kind),
            None => false,
        }
    }
}

// Whether the kind is one after Else, in the order of the kinds: it has no fixed lexeme.
pub fn is_free(kind: Kind) -> bool
    ensures { result ≡ ltb Else (kind_number kind) }
{
    (Kind::Else as u32) < kind as u32
}

// ---- clauses 6 and 7, at a bracket

// Whether a bracket after the rows `before` is a `{` after a comma, or a `}` that leaves a record empty.
fn forbids(before: &[u8], kind: Kind) -> bool
    requires { kind_number kind ≤ Comma }
    ensures { (text : List ℕ) → result ≡ forbids (seen before.now text) (kind_number kind) }
{
    match kind {
        Kind::LeftBrace => follows_comma(before),
        Kind::RightBrace => empties_record(before),
        _ => false,
    }
}

// Whether the last token but Eof is a Comma.
fn follows_comma(before: &[u8]) -> bool
    ensures { (text : List ℕ) → result ≡ (seen before.now text).comma }
{
    let mut left = before;
    while let Some((rest, row)) = left.split_last_chunk::<ROW_BYTES>() {
        match kind_of(row) {
            Kind::Comma => return true,
            Kind::Eof => left = rest,
            _ => return false,
        }
    }
    false
}

// Whether the last token is the first `{` after a Record.
fn empties_record(before: &[u8]) -> bool
    ensures { (text : List ℕ) → result ≡ (seen before.now text).opened }
{
    match before.split_last_chunk::<ROW_BYTES>() {
        Some((rest, row)) => kind_of(row) == Kind::LeftBrace && is_armed(rest),
        None => false,
    }
}

// Whether there is a Record, and no `{` since. Only a `}` directly after a `{` asks for it, so that no row is
// looked at twice.
fn is_armed(before: &[u8]) -> bool
    ensures { (text : List ℕ) → result ≡ (seen before.now text).armed }
{
    let mut left = before;
    while let Some((rest, row)) = left.split_last_chunk::<ROW_BYTES>() {
        match kind_of(row) {
            Kind::Record => return true,
            Kind::LeftBrace => return false,
            _ => left = rest,
        }
    }
    false
}

// The kind of the token whose row it is.
fn kind_of(row: &[u8; ROW_BYTES]) -> Kind
    ensures { kind_number result ≡ min (number row.now 4) Other }
{
    Kind::of(number_at(row, 4))
}

// ---- clauses 4 and 5, at a lexeme that begins with an operator byte

// The row of the last token but Newline and Eof, if there is one.
fn last_written(before: &[u8]) -> Option<Row>
    ensures { MatchOption result (NoneNear before.now) (λ row. Near before.now (row_of row)) }
{
    let mut left = before;
    while let Some((rest, bytes)) = left.split_last_chunk::<ROW_BYTES>() {
        let row = row_at(bytes, 0);
        if !is_mute(row.token_kind()) {
            return Some(row);
        }
        left = rest;
    }
    None
}

// Whether the kind is Newline or Eof: these are not written.
fn is_mute(kind: Kind) -> bool
    ensures { result ≡ mute (kind_number kind) }
{
    matches!(kind, Kind::Eof | Kind::Newline)
}

// The same as `meets`, after a token of the kind `near` whose bytes are `before`.
fn meets_after(near: Kind, before: &[u8], kind: Kind) -> bool
    ensures { result ≡ meets_after (kind_number near) before.now (kind_number kind) }
{
    if kind == Kind::Dot && begins_digit(before) {
        return true;
    }
    ends_operator(before) && (tight_before(near) || tight_after(kind))
}

// Whether the kind is one that no operator byte may follow directly.
fn tight_before(kind: Kind) -> bool
    ensures { result ≡ tight_before (kind_number kind) }
{
    matches!(
        kind,
        Kind::Dot
            | Kind::DotDot
            | Kind::ColonColon
            | Kind::Hash
            | Kind::Bang
            | Kind::BangHash
            | Kind::Minus
    )
}

// Whether the kind is one that may not follow an operator byte directly.
fn tight_after(kind: Kind) -> bool
    ensures { result ≡ tight_after (kind_number kind) }
{
    matches!(
        kind,
        Kind::Colon | Kind::Dot | Kind::DotDot | Kind::ColonColon
    )
}
