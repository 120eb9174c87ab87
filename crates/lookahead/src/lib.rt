// The lookaheads of format.rs over rows.
#![tactic(auto)]

ghost use Rattle.std.specs.Prelude.{List, ◌≡◌, ℕ, ◌+◌, ◌^◌, ◌≤◌, ◌<◌, eqb, length, find, option_map};
ghost use Rattle.rows.specs.Row.{rows_of};
ghost use Rattle.rows.specs.Checks.{most_row_bytes};
ghost use Rattle.rows.specs.Token.{tokens_of};
ghost use Rattle.rows.specs.Bounds.{row_of};
ghost use Rattle.lookahead.specs.Answer.{sig_answer, group_answer};
ghost use Rattle.lookahead.specs.Measure.{start, row_sizes, opens_paren, sig_measure, group_measure};
ghost use Rattle.lookahead.specs.Measure.{sig_breaks, list_breaks, block_is_single_line, next_has_comment, next_is};
ghost use Rattle.lookahead.specs.Scan.{after_last, width_rows, is_comment, is_trivia, trails, group_of};
ghost use Rattle.lookahead.specs.Scan.{measure_rows, measure_of, token_kind, GroupKinds, comma_ahead};
ghost use Rattle.lookahead.specs.Scan.{breaks_at, FewIn};
ghost use Rattle.rows.specs.Kinds.{TokenRow};
ghost use Rattle.rows.specs.KindNumber.{kind_number};
ghost use Rattle.rows.specs.RowsLeft.{rows_left};

use crate::measure::{BRACKETS, Measure, PARENS, Pair, Span, is_top_comma, size_of};
use rows::{Kind, MOST_ROWS, ROW_BYTES, Row, Rows, What};

mod measure;

// The bytes of as many rows as a layout takes at most.
const MOST_ROW_BYTES: usize = MOST_ROWS * ROW_BYTES;

// No measure of as many rows is wider.
const NO_LIMIT: usize = MOST_ROWS << 32;

// The lookaheads take the part of the rows that starts at the opener, its own leading rows included, and goes
// to the end. The first four go by the rows' own numbers. Where the rows lie in a text, the tokens that they
// name there have these sizes (proofs/Sizes.antt: sizes_in_bounds).

// Whether a signature breaks: more than 3 params, or wider than `fn_sig_width`.
pub fn should_break_sig(rows: &[u8], fn_sig_width: u32) -> bool
    ensures { result ≡ sig_breaks fn_sig_width (sig_measure (row_sizes (rows_of rows.now))) }
{
    decide(rows, Span::Signature, fn_sig_width as usize)
}

// Whether a list breaks: it has a top-level comma, and is wider than `list_width`.
pub fn should_break_list(rows: &[u8], list_width: u32) -> bool
    ensures { result ≡ list_breaks list_width (group_measure (row_sizes (rows_of rows.now))) }
{
    decide(rows, group(rows), list_width as usize)
}

// A signature's number of params, and its width.
#[derive(Clone, Copy)]
pub struct SigMeasure {
    pub params: usize,
    pub width: usize,
}

// Measures the signature that the rows begin with. More rows than a layout takes measure 0.
pub fn sig_measure(rows: &[u8]) -> SigMeasure
    ensures { result ≡ sig_answer rows.now }
{
    if MOST_ROW_BYTES < rows.len() {
        return SigMeasure {
            params: 0,
            width: 0,
        };
    }
    let (m, _) = until_wide(rows, Span::Signature, NO_LIMIT);
    if m.width == 0 {
        return SigMeasure {
            params: 0,
            width: 0,
        };
    }
    SigMeasure {
        params: m.commas + 1,
        width: m.width,
    }
}

// A group's number of top-level commas, and its width.
#[derive(Clone, Copy)]
pub struct GroupMeasure {
    pub commas: usize,
    pub width: usize,
}

// Measures the group that the rows begin with. More rows than a layout takes measure 0.
pub fn group_measure(rows: &[u8]) -> GroupMeasure
    ensures { result ≡ group_answer rows.now }
{
    if MOST_ROW_BYTES < rows.len() {
        return GroupMeasure {
            commas: 0,
            width: 0,
        };
    }
    let (m, _) = until_wide(rows, group(rows), NO_LIMIT);
    GroupMeasure {
        commas: m.commas,
        width: m.width,
    }
}

// Whether a block closes before a Newline, an Eof and any trivia; a closing brace has no trailing rows then.
pub fn block_is_single_line(rows: &[u8]) -> bool
    ensures { (text : List ℕ) → result ≡ block_is_single_line (tokens_of rows.now text) }
{
    let mut left = Rows::of(rows);
    let mut depth = 0;
    let mut follows = false; // a token's row
    while let Some(row) = left.next() {
        if !row.is_token() {
            if is_trivia(row, follows) {
                return false;
            }
        } else if row.kind == Kind::LeftBrace as u32 {
            depth += 1;
        } else if row.kind <= Kind::RightBrace as u32 {
            match row.token_kind() {
                Kind::RightBrace if depth <= 1 => return !trails(left),
                Kind::RightBrace => depth -= 1,
                _ => return false,
            }
        }
        follows = row.is_token();
        // A token closes one level at most.
        if left.len() < depth {
            return false;
        }
    }
    false
}

// Whether the next token has a comment among its leading rows. The rows start right after a token's row, so
// that token's trailing rows come first.
#[tactic(auto, unfolding(crate::proofs::Tokens::comment_ahead), using(crate::proofs::Looking::comment_said))]
pub fn next_has_comment(rows: &[u8]) -> bool
    ensures { (text : List ℕ) → result ≡ next_has_comment (tokens_of rows.now text) }
{
    let mut seen = false;
    for row in Rows::of(rows) {
        if row.is_token() {
            return seen;
        }
        if is_comment(row) {
            seen = true;
        }
    }
    false
}

// Whether the next token is of the kind. The rows start right after a token's row, so that token's trailing
// rows and the next one's leading rows come first.
pub fn next_is(rows: &[u8], kind: u32) -> bool
    ensures { (text : List ℕ) → result ≡ next_is kind (tokens_of rows.now text) }
{
    match first_token(rows) {
        Some(row) => row.kind == kind,
        None => false,
    }
}

// Answers the first row that is a token's.
fn first_token(rows: &[u8]) -> Option<Row>
    ensures { option_map row_of result ≡ find (λ r. eqb r.what TokenRow) (rows_of rows.now) }
{
    Rows::of(rows).find(|row| row.is_token())
}

// Answers the index after the last row of the kind, or 0. No token of the kind stands from there on
// (proofs/Lacks.antt: none-after).
#[tactic(auto, using(crate::proofs::Lacks::by_last))]
pub fn after_last(rows: &[u8], kind: u32) -> usize
    ensures { result ≡ after_last kind rows.now }
{
    let mut before = Rows::of(rows);
    while let Some(row) = before.next_back() {
        if row.kind == kind {
            return ROW_BYTES * (before.len() + 1);
        }
    }
    0
}

// Answers the width of all tokens together, as a list's width counts them. No list is wider.
pub fn total_width(rows: &[u8]) -> usize
    requires { length rows.now ≤ most_row_bytes }
    ensures { result ≡ width_rows (rows_of rows.now) }
{
    let mut width = 0;
    for row in Rows::of(rows) {
        if row.is_token() {
            width += size_of(row) + 1;
        }
    }
    width
}

// Whether a signature or a list breaks. What is wider than the limit does, a list only with a comma at its
// top.
fn decide(rows: &[u8], span: Span, limit: usize) -> bool
    requires { limit < 2 ^ 32 }
    ensures { result ≡ breaks_at span limit (measure_rows span start (rows_of rows.now)) }
{
    let (m, left) = until_wide(rows, span, limit);
    if m.width <= limit {
        return m.breaks(span, limit);
    }
    if 0 < m.commas {
        return true;
    }
    match span {
        Span::Signature => true,
        Span::Paren => comma_ahead(left, m.parens, m.brackets, PARENS, BRACKETS),
        Span::Bracket => comma_ahead(left, m.brackets, m.parens, BRACKETS, PARENS),
    }
}

// Measures until the width is above the limit, and answers the rows that are left too. A measure that stays
// below it is whole. Most kinds stand behind Comma, and add their size alone. Inlined, since a short list
// would notice the call.
#[inline(always)]
fn until_wide<'a>(rows: &'a [u8], span: Span, limit: usize) -> (Measure, Rows<'a>)
    requires { limit < 2 ^ 62 }
    ensures left { limit < result.0.width → measure_rows span start (rows_of rows.now)
        ≡ measure_rows span (measure_of result.0) (rows_left result.1) }
    ensures whole { result.0.width ≤ limit
        → measure_rows span start (rows_of rows.now) ≡ measure_of result.0 }
    ensures few { FewIn result.0 (rows_left result.1) (rows_of rows.now) }
{
    let mut m = Measure::new();
    let mut left = Rows::of(rows);
    while let Some(row) = left.next() {
        if !row.is_token() {
            continue;
        }
        let size = size_of(row);
        if row.kind > Kind::Comma as u32 {
            m.width += size + 1;
        } else {
            let kind = row.token_kind();
            if m.stops(span, kind) {
                return (m, left);
            }
            m = m.counts(span, kind, size);
        }
        if limit < m.width {
            return (m, left);
        }
    }
    (m, left)
}

// Whether a comma stands at the top of a group, in the rows that are left, before the group closes. `own` and
// `other` are the depths there: of the group's own kinds, and of the others. Its own kinds are tested first:
// a hostile list nests them. A token closes one level at most, so where fewer rows follow than levels are
// open the answer is no.
fn comma_ahead(left: Rows, own: usize, other: usize, pair: Pair, other_pair: Pair) -> bool
    requires depths { (own + length (rows_left left) < 2 ^ 62) × (other + length (rows_left left) < 2 ^ 62) }
    requires kinds { GroupKinds (kind_number pair.opener) (kind_number pair.closer)
        (kind_number other_pair.opener) (kind_number other_pair.closer) }
    ensures { result ≡ comma_ahead (kind_number pair.opener) (kind_number pair.closer)
        (kind_number other_pair.opener) (kind_number other_pair.closer) own other
        (rows_left left.entry) }
{
    let mut behind = left.len(); // how many rows follow
    let mut own = own;
    let mut other = other;
    for row in left {
        behind -= 1;
        let kind = token_kind(row);
        if kind == pair.opener as u32 {
            own += 1;
        } else if kind == pair.closer as u32 {
            if 1 < own {
                own -= 1;
            } else if other == 0 {
                return false;
            } else {
                own = 0;
            }
        } else if kind <= Kind::Comma as u32 {
            let kind = Kind::of(kind);
            if kind == Kind::Eof {
                return false;
            }
            if is_top_comma(kind, own, other) {
                return true;
            }
            other = other_pair.depth_after(kind, other);
        }
        if behind < own + other {
            return false;
        }
    }
    false
}

// Answers the kind of a token. A row that is no token's counts as a token that matters to no depth.
fn token_kind(row: Row) -> u32
    ensures { result ≡ token_kind (row_of row) }
{
    if row.is_token() {
        row.kind
    } else {
        Kind::Other as u32
    }
}

// Answers which group the first token opens.
fn group(rows: &[u8]) -> Span
    ensures { result ≡ group_of (opens_paren (row_sizes (rows_of rows.now))) }
{
    match first_token(rows) {
        Some(row) if row.kind == Kind::LeftParen as u32 => Span::Paren,
        _ => Span::Bracket,
    }
}

// Whether a row that is no token's is trivia of a token: a leading row, or a trailing row that follows a
// token's row.
fn is_trivia(row: Row, follows: bool) -> bool
    ensures { result ≡ is_trivia (row_of row).what follows }
{
    match row.what() {
        Some(What::Leading) => true,
        Some(What::Trailing) => follows,
        _ => false,
    }
}

// Whether the first of the rows that are left is a trailing row.
fn trails(left: Rows) -> bool
    ensures { result ≡ trails (rows_left left.entry) }
{
    let mut left = left;
    left.next()
        .is_some_and(|row| row.what() == Some(What::Trailing))
}

// Whether a row is a leading comment.
fn is_comment(row: Row) -> bool
    ensures { result ≡ is_comment (row_of row) }
{
    row.what == What::Leading as u32 && !row.is_blank_line()
}
