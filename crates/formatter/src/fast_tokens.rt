// Fast tokens: those that only write their lexeme, and a space before it, are laid out in a tight loop. It is
// a second form of their arms.
ghost use Rattle.std.specs.Prelude.{true, cond, not, ◌&&◌, ◌≡◌, ◌+◌, ◌-◌, ◌/◌, ◌*◌, ◌^◌, ◌≤◌, ◌<◌, eqb, length};
ghost use Rattle.rows.specs.Kinds.{Other};
ghost use Rattle.spaces.specs.Between.{bit};
ghost use Rattle.rows.specs.Row.{row_size};
ghost use Rattle.definition.specs.Emit.{is_some};
ghost use Rattle.formatter.specs.CodeState.{code_state, fn_number, most_fn_state, signature_of};
ghost use Rattle.formatter.specs.Token.{kind_of};
ghost use Rattle.formatter.specs.Format.{CheckedRows, TokenBoundary, RowsLeft, NoTriviaIf};
ghost use Rattle.formatter.specs.FastTokens.{MayStartFastTokens, BareRow, RowAhead, IsFastToken};
ghost use Rattle.formatter.specs.FastTokens.{LaysFastTokens, TracksFastToken};
ghost use Rattle.formatter.specs.FastTokens.{fast_kinds_of, fast_kind_bits, changing_kinds, space_before};
ghost use Rattle.formatter.specs.FastTokens.{fn_after, pending_after, unary_after, group_after};

use crate::lexeme::{named_after, record_pending_after};
use crate::{FnState, Formatter, GroupDepth};
use rows::{Kind, KindSet, ROW_BYTES, What, row_at};
use sink::write::Sink;
use spaces::is_value_kind;
use spaces::loose::loose_after;

// These kinds are fast in every state: Colon to Minus, Record, Identifier to Other.
const FAST: KindSet = KindSet(0x7_ffe7_fe00);

// The others are fast in some states, as `fast_kinds` tells.
const COMMA: KindSet = KindSet(1 << Kind::Comma as u64);

const ELSE: KindSet = KindSet(1 << Kind::Else as u64);

const FN: KindSet = KindSet(1 << Kind::Fn as u64);

const CLOSERS: KindSet = KindSet(1 << Kind::RightParen as u64 | 1 << Kind::RightBracket as u64);

// These change a field that fast tokens change where `fn_state` is `OUTSIDE` and no record is pending:
// RightParen, RightBracket, Minus, Fn, Record.
const CHANGING: KindSet = KindSet(
    CLOSERS.0 | FN.0 | 1 << Kind::Minus as u64 | 1 << Kind::Record as u64,
);

impl<'a> Formatter<'a> {
    // Whether fast tokens may start at the row at `at`: in a line, and not right after the `}` of a one-line
    // block. Braces, openers, Newline, Eof and trivia never are fast.
    pub fn may_start_fast_tokens(&self, at: usize) -> bool
        requires { RowsLeft self.now.rows.now at }
        ensures { result ≡ true → MayStartFastTokens self.now }
    {
        if self.rows.len() <= at {
            return false;
        }
        let kind = row_at(self.rows, at).kind;
        if kind <= Kind::LeftParen as u32 || kind == Kind::LeftBracket as u32 {
            return false;
        }
        if self.at_line_start {
            return false;
        }
        if self.just_closed_inline {
            return false;
        }
        if self.in_broken_signature() {
            return self.fn_state == FnState::OUTSIDE;
        }
        true
    }

    // Lays out the fast tokens from the row at `from` on, as many as fit, and answers the index of the row
    // after them. What each turn reads is in locals: in fields it takes longer.
    pub fn push_fast_tokens(&mut self, sink: &mut Sink, from: usize) -> usize
        requires len_in_bounds { sink.old.len ≤ length sink.old.out.now }
        requires checked { CheckedRows self.old.rows.now self.old.text.now }
        requires last_bound { kind_of self.old.prev ≤ Other }
        requires token_boundary { TokenBoundary self.old.rows.now self.old.text.now from }
        requires no_trivia_if { NoTriviaIf self.old.bare self.old.rows.now }
        ensures lays { LaysFastTokens (code_state self.old sink.old) from result
            (code_state self.new sink.new) }
        ensures fn_state { fn_number self.old.fn_state ≤ most_fn_state
            → fn_number self.new.fn_state ≤ most_fn_state }
    {
        let bare = self.bare;
        let rows = self.rows;
        let text = self.text;
        let fast = self.fast_kinds();
        let mut changing = changing_kinds(self.fn_state, self.record_pending);
        let mut loose = loose_after(Kind::Other as u32, self.prev_minus_is_unary);
        let mut at = from;
        let mut prev = self.prev.unwrap_or(Kind::Eof as u32);
        let mut spaced = bit(loose, prev);
        // No iterator over rows: the row after the one at hand is looked at too, and the index is the answer.
        while is_fast_token(fast, rows, at, bare, sink.room(), spaced) {
            let row = row_at(rows, at);
            let space = space_before(spaced, row.kind);
            sink.put_token(space, text, row.start as usize, row.end as usize);
            if bit(changing, row.kind) == 1 {
                self.track_fast_token(prev, row.kind);
                changing = changing_kinds(self.fn_state, self.record_pending);
                loose = loose_after(Kind::Other as u32, self.prev_minus_is_unary);
            }
            prev = row.kind;
            spaced = bit(loose, prev);
            at += ROW_BYTES;
        }
        self.prev = Some(prev);
        at
    }

    // Tracks a fast token of this kind, after one of the kind `prev`.
    fn track_fast_token(&mut self, prev: u32, kind: u32)
        ensures { TracksFastToken prev kind self.old self.new }
    {
        self.fn_state = fn_state_after(self.fn_state, kind);
        self.record_pending = pending_after(self.record_pending, kind);
        self.prev_minus_is_unary = unary_after(self.prev_minus_is_unary, prev, kind);
        self.group_depth = GroupDepth(group_depth_after(self.group_depth.0, kind));
    }

    // The kinds that are fast in this state, as bits: a Comma where it does not break its line, `else` where
    // no `}` stands before it, `fn` outside broken signatures, `)` and `]` where nothing is broken.
    fn fast_kinds(&self) -> KindSet
        ensures { result.0 ≡ fast_kind_bits (fast_kinds_of self.now) }
    {
        let commas = kinds_if(!self.breaks_comma(), COMMA);
        let elses = kinds_if(!self.prev_is(Kind::RightBrace as u32), ELSE);
        let fns = kinds_if(!self.in_broken_signature(), FN);
        let closers = kinds_if(self.nothing_is_broken(), CLOSERS);
        KindSet(FAST.0 + commas.0 + elses.0 + fns.0 + closers.0)
    }

    // Whether the walk is in no broken signature and in no broken list.
    fn nothing_is_broken(&self) -> bool
        ensures { result
            ≡ not (is_some (signature_of self.now.sig_break_depth)) && eqb (length self.now.break_stack) 0 }
    {
        !self.in_broken_signature() && self.break_stack.is_empty()
    }
}

// Whether the row at `at` is a token of the kinds `fast`, without trivia, that fits into `room` bytes.
// `spaced` is 1 where a space may stand before it, else 0.
fn is_fast_token(
    fast: KindSet,
    rows: &[u8],
    at: usize,
    bare: bool,
    room: usize,
    spaced: usize,
) -> bool
    requires row_ahead { RowAhead rows.now at }
    requires no_trivia_if { NoTriviaIf bare rows.now }
    requires few_spaces { spaced < 2 }
    ensures { result ≡ true → IsFastToken rows.now fast.0 at room spaced }
{
    if rows.len() <= at {
        return false;
    }
    let row = row_at(rows, at);
    if bit(fast, row.kind) == 0 || !is_bare_row(rows, at, bare) {
        return false;
    }
    fits(
        room,
        space_before(spaced, row.kind),
        row.start as usize,
        row.end as usize,
    )
}

// Whether the kind of this number is in the set: 1 or 0. The loop compares kinds as rows have them: as
// `Kind`s identifiers and names take 8 in 100 more.
fn bit(set: KindSet, kind: u32) -> usize
    requires { kind ≤ Other }
    ensures { result ≡ bit set.0 kind }
{
    (set.0 >> kind) as usize % 2
}

// How many spaces stand before a fast token of this kind, where `spaced` many may: the kinds before Hash
// (closers, separators and dots) take none.
fn space_before(spaced: usize, kind: u32) -> usize
    ensures { result ≡ space_before spaced kind }
{
    if kind < Kind::Hash as u32 {
        return 0;
    }
    spaced
}

// The kinds that change a field, as bits: all, where `fn` or `record` is still looked back to.
fn changing_kinds(fn_state: FnState, record_pending: bool) -> KindSet
    ensures { result.0 ≡ changing_kinds (fn_number fn_state) record_pending }
{
    if record_pending || fn_state != FnState::OUTSIDE {
        return KindSet::ALL;
    }
    CHANGING
}

// `fn_state` after a fast token of this kind.
fn fn_state_after(state: FnState, kind: u32) -> FnState
    ensures { fn_number result ≡ fn_after kind (fn_number state) }
{
    if kind == Kind::Fn as u32 {
        return FnState::AFTER_FN;
    }
    if kind == Kind::Identifier as u32 {
        return named_after(state);
    }
    FnState::OUTSIDE
}

// `record_pending` after a fast token of this kind: only the last arm of `push_token` sets it.
fn pending_after(pending: bool, kind: u32) -> bool
    ensures { result ≡ pending_after kind pending }
{
    if kind <= Kind::Comma as u32 || kind == Kind::Else as u32 {
        return pending;
    }
    record_pending_after(pending, kind)
}

// `prev_minus_is_unary` after a fast token of this kind, where the one before has the kind `prev`.
fn unary_after(unary: bool, prev: u32, kind: u32) -> bool
    ensures { result ≡ unary_after prev kind unary }
{
    if kind == Kind::Minus as u32 {
        return !is_value_kind(prev);
    }
    unary
}

// `group_depth` after a fast token of this kind.
fn group_depth_after(depth: usize, kind: u32) -> usize
    ensures { result ≡ group_after kind depth }
{
    if kind == Kind::RightParen as u32 || kind == Kind::RightBracket as u32 {
        return depth.saturating_sub(1);
    }
    depth
}

// The set, or no kind.
fn kinds_if(wanted: bool, set: KindSet) -> KindSet
    ensures { (result.0 ≡ cond wanted set.0 0) × (result.0 ≤ set.0) }
{
    if wanted {
        return set;
    }
    KindSet(0)
}

// Whether the row at `at` is a token's without trivia. Where `bare` is true, every row is.
fn is_bare_row(rows: &[u8], at: usize, bare: bool) -> bool
    requires row_size_in_bounds { (at + row_size ≤ length rows.now) × (at ≡ row_size * (at / row_size)) }
    requires no_trivia_if { NoTriviaIf bare rows.now }
    ensures { result ≡ true → BareRow rows.now at }
{
    if bare {
        return true;
    }
    if !row_at(rows, at).is_token() {
        return false;
    }
    let next = at + ROW_BYTES;
    if rows.len() - next < ROW_BYTES {
        return true;
    }
    row_at(rows, next).what != What::Trailing as u32
}

// Whether the lexeme from `start` to `end` has a byte, and fits into `room` bytes with the space before it.
fn fits(room: usize, space: usize, start: usize, end: usize) -> bool
    requires { (space < 2) × (end < 2 ^ 32) }
    ensures { result ≡ true → (start < end) × (space + (end - start) ≤ room) }
{
    if end <= start {
        return false;
    }
    space + (end - start) <= room
}

#[cfg(test)]
mod tests {
    use crate::{BraceStyle, FnState, Formatter, Options};
    use row_writers::Source;
    use rows::Kind;
    use sink::write::Sink;

    // After `x` in a line, `fn` and a name are fast tokens. Each of the two rows has its four numbers.
    #[test]
    fn lays_out_fn_and_name(rt: HostRuntime) {
        let rows = [
            1, 0, 0, 0, 20, 0, 0, 0, 0, 0, 0, 0, 2, 0, 0, 0, 1, 0, 0, 0, 22, 0, 0, 0, 2, 0, 0, 0,
            4, 0, 0, 0,
        ];
        let options = Options {
            brace_style: BraceStyle::SameLine,
            indent_width: 4,
            fn_sig_width: 100,
            list_width: 100,
        };
        let source = Source {
            rows: &rows,
            text: b"fnab",
        };
        let mut formatter = Formatter::new(options, source, false);
        formatter.at_line_start = false;
        formatter.prev = Some(Kind::Identifier as u32);
        let mut out = [0; 9];
        let mut sink = Sink {
            out: &mut out,
            len: 0,
        };
        let at = formatter.push_fast_tokens(&mut sink, 0);
        assert_eq!(rt; at, 32);
        assert_eq!(rt; sink.len, 6);
        assert!(rt; formatter.fn_state == FnState::NAMED);
        assert!(rt; formatter.prev == Some(Kind::Identifier as u32));
        assert_eq!(rt; out, *b" fn ab\0\0\0");
    }
}
