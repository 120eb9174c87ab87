// The arm of Newline.
ghost use Rattle.std.specs.Prelude.{List, ◌≡◌, ℕ, ◌+◌, ◌≤◌, length, take, drop};
ghost use Rattle.rows.specs.Row.{row_size};
ghost use Rattle.rows.specs.Token.{tokens_of};
ghost use Rattle.definition.specs.Emit.{is_at};
ghost use Rattle.definition.specs.Arms.{ends_with_two_feeds, newline_arm};
ghost use Rattle.formatter.specs.CodeState.{Locals, code_state, newline_of, state_of};
ghost use Rattle.formatter.specs.Does.{Puts};
ghost use Rattle.formatter.specs.Token.{AtTokenOf};
ghost use Rattle.formatter.specs.Parts.{feeds_line};

use crate::{Formatter, TokenAt};
use lookahead::next_has_comment;
use rows::{Kind, ROW_BYTES};
use sink::write::Sink;

impl<'a> Formatter<'a> {
    // Newline: it is swallowed, or writes a line feed, or is left out.
    pub fn newline_arm(&mut self, sink: &mut Sink, token: TokenAt)
        requires { token.own + row_size ≤ length self.old.rows.now }
        ensures { (text : List ℕ) → AtTokenOf token self.old.rows.now text
            (λ t ts. Puts (newline_arm token.index ts) self.old sink.old self.new sink.new) }
    {
        if self.suppresses(token.index) {
            self.suppress_newline_at = None;
        } else if self.feeds(sink, token.own) {
            sink.write_byte(b'\n');
            self.at_line_start = true;
            self.prev = Some(Kind::Newline as u32);
        }
    }

    // Whether a Newline at this index is swallowed.
    fn suppresses(&self, index: u32) -> bool
        ensures { result ≡ is_at (newline_of self.now.suppress_newline_at) index }
    {
        self.suppress_newline_at == Some(index)
    }

    // Whether a Newline that is not swallowed writes a line feed, before the tokens of the rows after `own`:
    // not at the text's start before a comment, not in a record or a one-line block, and never a third line
    // feed.
    fn feeds(&self, sink: &Sink, own: usize) -> bool
        requires { own + row_size ≤ length self.now.rows.now }
        ensures { (text : List ℕ) (x : Locals) → sink.now.len ≤ length sink.now.out.now
            → result ≡ feeds_line (tokens_of (drop (own + row_size) self.now.rows.now) text)
            (state_of x (code_state self.now sink.now)) }
    {
        if sink.len == 0 && next_has_comment(&self.rows[own + ROW_BYTES..]) {
            return false;
        }
        if self.in_record || self.in_one_line_block() {
            return false;
        }
        !self.at_line_start || !ends_with_two_feeds(sink)
    }
}

// Whether the text so far ends with two line feeds.
fn ends_with_two_feeds(sink: &Sink) -> bool
    ensures { sink.now.len ≤ length sink.now.out.now
        → result ≡ ends_with_two_feeds (take sink.now.len sink.now.out.now) }
{
    let len = sink.len;
    if len < 2 || sink.out.len() < len {
        return false;
    }
    sink.out[len - 2] == b'\n' && sink.out[len - 1] == b'\n'
}
