// Fast braces: the braces of one-line blocks are laid out in a tight loop. It is a second form of their arms.
ghost use Rattle.std.specs.Prelude.{true, ◌≡◌, ◌+◌, ◌≤◌, ◌<◌, length, drop};
ghost use Rattle.shared.specs.Numbers.{past64};
ghost use Rattle.rows.specs.Row.{rows_of};
ghost use Rattle.formatter.specs.CodeState.{code_state};
ghost use Rattle.formatter.specs.Format.{RowsLeft, only_tokens};
ghost use Rattle.formatter.specs.FastBraces.{MayStartFastBraces, LaysFastBraces};

use crate::{FnState, Formatter, InlineDepth};
use rows::{Kind, ROW_BYTES, Rows, row_at};
use sink::write::Sink;

impl<'a> Formatter<'a> {
    // Whether fast braces may start at the row at `at`: in a one-line block and in a line, outside records,
    // where no `record` or `fn` is looked back to, and there is no trivia.
    pub fn may_start_fast_braces(&self, at: usize) -> bool
        requires { RowsLeft self.now.rows.now at }
        ensures { result ≡ true → MayStartFastBraces self.now }
    {
        if !self.in_one_line_block() {
            return false;
        }
        if self.rows.len() <= at {
            return false;
        }
        if (Kind::RightBrace as u32) < row_at(self.rows, at).kind {
            return false;
        }
        if !self.bare {
            return false;
        }
        if self.at_line_start {
            return false;
        }
        if self.record_pending {
            return false;
        }
        if self.in_record {
            return false;
        }
        self.fn_state == FnState::OUTSIDE
    }

    // Lays out the braces from the row at `from` on, while they stand in a one-line block and two bytes are
    // free, and answers the index of the row after them.
    pub fn push_fast_braces(&mut self, sink: &mut Sink, from: usize) -> usize
        requires at_in_bounds { (from ≤ length self.old.rows.now)
            × (sink.old.len ≤ length sink.old.out.now) }
        requires rows_value { only_tokens (rows_of (drop from self.old.rows.now)) ≡ true }
        requires rows_bound { self.old.inline_depth.0 + length self.old.rows.now < past64 }
        ensures { LaysFastBraces (code_state self.old sink.old) from result (code_state self.new sink.new) }
    {
        let mut at = from;
        let mut prev = self.prev.unwrap_or(Kind::Eof as u32);
        let mut depth = self.inline_depth.0;
        let mut closed = self.just_closed_inline;
        for row in Rows::of(&self.rows[from..]) {
            if !takes_brace(depth, sink.room()) {
                break;
            }
            match row.token_kind() {
                Kind::LeftBrace => {
                    sink.put_token(1, b"{", 0, 1);
                    prev = Kind::LeftBrace as u32;
                    depth += 1;
                    closed = false;
                }
                Kind::RightBrace => {
                    sink.put_token(usize::from(prev != Kind::LeftBrace as u32), b"}", 0, 1);
                    prev = Kind::RightBrace as u32;
                    depth -= 1;
                    closed = true;
                }
                _ => break,
            }
            at += ROW_BYTES;
        }
        self.prev = Some(prev);
        self.inline_depth = InlineDepth(depth);
        self.just_closed_inline = closed;
        at
    }
}

// Whether a one-line block is open, and a space and a brace fit into `room` bytes.
fn takes_brace(depth: usize, room: usize) -> bool
    ensures { result ≡ true → (0 < depth) × (2 ≤ room) }
{
    if room < 2 {
        return false;
    }
    0 < depth
}
