// The leading and trailing trivia of `push_token`.
ghost use Rattle.std.specs.Prelude.{◌≡◌, ◌+◌, ◌<◌};
ghost use Rattle.rows.specs.Row.{row_size};
ghost use Rattle.rows.specs.Bounds.{Inside, row_of};
ghost use Rattle.rows.specs.Token.{trivia_of};
ghost use Rattle.definition.specs.Emit.{lead_act, trailing_trivia};
ghost use Rattle.sink.specs.Appends.{Appends};
ghost use Rattle.formatter.specs.CodeState.{options_of};
ghost use Rattle.formatter.specs.Does.{Puts};
ghost use Rattle.formatter.specs.Token.{IndentBounds};
ghost use Rattle.formatter.specs.Trivia.{WholeRows, trivia_in, lead_token, trail_bytes};

use crate::{Formatter, TokenAt};
use row_writers::comments::{write_blank_line, write_lead, write_trail};
use rows::{ROW_BYTES, Row, Rows};
use sink::write::Sink;

impl<'a> Formatter<'a> {
    // Writes the token's leading rows, of which there is at least one; `just_closed_inline` stays as it is.
    pub fn push_leading(&mut self, sink: &mut Sink, token: TokenAt)
        requires indent_bounds { IndentBounds self.old }
        requires whole_rows { WholeRows self.old.rows.now self.old.text.now
            token.lead token.own }
        requires lead_lt_own { token.lead < token.own }
        ensures { Puts (lead_token (options_of self.old.options)
            (trivia_in self.old.rows.now self.old.text.now token.lead token.own))
            self.old sink.old self.new sink.new }
    {
        let rows = self.rows;
        for row in Rows::of(&rows[token.lead..token.own]) {
            self.push_lead(sink, row);
        }
    }

    // Writes one leading row. It never breaks a line by itself, unless it is a blank line.
    fn push_lead(&mut self, sink: &mut Sink, row: Row)
        requires indent_bounds { IndentBounds self.old }
        requires inside { Inside self.old.text.now (row_of row) }
        ensures does { Puts (lead_act (options_of self.old.options)
            (trivia_of self.old.text.now (row_of row))) self.old sink.old self.new sink.new }
        ensures indent { self.new.indent ≡ self.old.indent }
    {
        if row.is_blank_line() {
            write_blank_line(sink, self.in_record);
            self.at_line_start = true;
            return;
        }
        let gap = self.indent_or_space();
        sink.write_spaces(gap);
        write_lead(sink, self.text, row);
    }

    // Writes the token's trailing rows. They change no field.
    pub fn push_trailing(&self, sink: &mut Sink, token: TokenAt)
        requires { WholeRows self.now.rows.now self.now.text.now
            (token.own + row_size) token.next }
        ensures { Puts (trailing_trivia
            (trivia_in self.now.rows.now self.now.text.now (token.own + row_size) token.next))
            self.now sink.old self.now sink.new }
    {
        let rows = self.rows;
        let text = self.text;
        for row in Rows::of(&rows[token.own + ROW_BYTES..token.next]) {
            push_trail(sink, text, row);
        }
    }
}

// Writes one trailing row. A blank line writes nothing.
fn push_trail(sink: &mut Sink, text: &[u8], row: Row)
    requires { Inside text.now (row_of row) }
    ensures { Appends sink.old (trail_bytes (trivia_of text.now (row_of row))) sink.new }
{
    if !row.is_blank_line() {
        write_trail(sink, text, row);
    }
}
