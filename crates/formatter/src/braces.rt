// The arms of `}` and `{`.
ghost use Rattle.std.specs.Prelude.{cond, not, ◌&&◌, ◌||◌, List, ◌∷◌, ◌≡◌, ℕ, ◌+◌, ◌-◌, ◌≤◌, ◌<◌, length};
ghost use Rattle.shared.specs.Numbers.{most32};
ghost use Rattle.rows.specs.Kinds.{Comma, LeftBrace, RightBrace};
ghost use Rattle.rows.specs.Row.{row_size};
ghost use Rattle.definition.specs.Act.{update};
ghost use Rattle.definition.specs.Emit.{prev_is, open_allman, open_same_line};
ghost use Rattle.definition.specs.Arms.{in_one_line_block, close_inline};
ghost use Rattle.lookahead.specs.Measure.{next_is};
ghost use Rattle.definition.specs.Arms.{close_record, close_block, right_brace_arm};
ghost use Rattle.definition.specs.Arms.{empty_record, open_block, left_brace_arm};
ghost use Rattle.sink.specs.Sink.{past_gap};
ghost use Rattle.sink.specs.declared.write.Sink.{Sink};
ghost use Rattle.formatter.specs.CodeState.{fields_of, options_of};
ghost use Rattle.formatter.specs.Does.{Puts};
ghost use Rattle.formatter.specs.Token.{IndentBounds, CanWrite, Ready, HasRows, HasEnds, AtToken, AtTokenOf};
ghost use Rattle.formatter.specs.Token.{bare_token, lexeme_of};
ghost use Rattle.formatter.specs.Parts.{inline_close_size, opens_block, record_entered};
ghost use Rattle.formatter.specs.Parts.{open_one_line, braced};

use crate::{BraceStyle, Formatter, RecordDepth, TokenAt};
use lookahead::{block_is_single_line, next_is};
use row_writers::{Source, write_lexeme};
use rows::{Kind, ROW_BYTES};
use sink::write::{Sink, Tail, count_comma};

impl<'a> Formatter<'a> {
    // `}` closes a one-line block, a record or a block over several lines.
    pub fn right_brace_arm(&mut self, sink: &mut Sink)
        requires { Ready self.old sink.old }
        ensures { Puts (right_brace_arm (options_of self.old.options)) self.old sink.old self.new sink.new }
    {
        if self.in_one_line_block() {
            self.close_inline(sink);
        } else if self.at_record_fields() {
            self.close_record(sink);
        } else {
            self.close_block(sink);
        }
    }

    // Writes the `}` of a one-line block.
    fn close_inline(&mut self, sink: &mut Sink)
        requires { CanWrite self.old sink.old }
        ensures { Puts (close_inline (options_of self.old.options)) self.old sink.old self.new sink.new }
    {
        let gap = self.inline_close_gap();
        sink.write_brace(gap, b'}');
        self.inline_depth.0 = self.inline_depth.0.saturating_sub(1);
        self.just_closed_inline = true;
        self.at_line_start = false;
        self.prev = Some(Kind::RightBrace as u32);
    }

    // How many spaces stand before the `}` of a one-line block: `{ style = 0 }` keeps its inner spaces, and
    // only `{}` is tight.
    fn inline_close_gap(&self) -> usize
        requires { IndentBounds self.now }
        ensures { (result ≡ inline_close_size (options_of self.now.options) (fields_of self.now))
            × (result < past_gap) }
    {
        if self.at_line_start {
            return self.indent_size();
        }
        if self.prev_is(Kind::LeftBrace as u32) {
            return 0;
        }
        1
    }

    // Writes the `}` of a record on a line of its own, and a comma before it if one is missing.
    fn close_record(&mut self, sink: &mut Sink)
        requires { Ready self.old sink.old }
        ensures { Puts (close_record (options_of self.old.options)) self.old sink.old self.new sink.new }
    {
        let wanted = self.wants_record_comma();
        self.indent = self.indent.saturating_sub(1);
        let spaces = self.indent_size();
        sink.write_closer(wanted, self.at_line_start, spaces, b'}');
        self.commas += count_comma(wanted);
        self.in_record = false;
        self.record_depth = RecordDepth(0);
        self.at_line_start = false;
        self.prev = Some(Kind::RightBrace as u32);
    }

    // Whether a comma is inserted before a record's `}`: not if the record is empty or has one.
    fn wants_record_comma(&self) -> bool
        ensures { result
            ≡ not (prev_is Comma (fields_of self.now) || prev_is LeftBrace (fields_of self.now)) }
    {
        !self.prev_is(Kind::Comma as u32) && !self.prev_is(Kind::LeftBrace as u32)
    }

    // Writes the `}` of a block over several lines.
    fn close_block(&mut self, sink: &mut Sink)
        requires { CanWrite self.old sink.old }
        ensures { Puts (close_block (options_of self.old.options)) self.old sink.old self.new sink.new }
    {
        self.indent = self.indent.saturating_sub(1);
        let spaces = self.indent_size();
        sink.write_closer(false, self.at_line_start, spaces, b'}');
        self.record_depth = self.record_depth_outside();
        self.at_line_start = false;
        self.prev = Some(Kind::RightBrace as u32);
    }

    // `record_depth` after a `}` that closes a block over several lines.
    fn record_depth_outside(&self) -> RecordDepth
        ensures { result.0 ≡ cond self.now.in_record (self.now.record_depth.0 - 1) self.now.record_depth.0 }
    {
        if self.in_record {
            return RecordDepth(self.record_depth.0.saturating_sub(1));
        }
        self.record_depth
    }

    // `{` opens an empty record, a block over several lines or a one-line block.
    pub fn left_brace_arm(&mut self, sink: &mut Sink, token: TokenAt)
        requires ready { Ready self.old sink.old }
        requires in_rows { HasRows token self.old × HasEnds token self.old }
        requires kind_value { token.kind ≡ LeftBrace }
        ensures { AtToken token self.old
            (λ t ts. Puts (left_brace_arm (options_of self.old.options) token.index t ts)
            self.old sink.old self.new sink.new) }
    {
        if self.empties_record(token) {
            self.empty_record(sink, token);
        } else if self.opens_block(token) {
            self.enter_record();
            self.open_block_multiline(sink, token.index);
        } else {
            self.open_one_line(sink);
        }
    }

    // Whether the token is the `{` of `record E {` with a `}` right after it.
    pub fn empties_record(&self, token: TokenAt) -> bool
        requires { token.own + row_size ≤ length self.now.rows.now }
        ensures { (text : List ℕ) → AtTokenOf token self.now.rows.now text
            (λ t ts. result ≡ self.now.record_pending && next_is RightBrace ts) }
    {
        self.record_pending && next_is(&self.rows[token.own + ROW_BYTES..], Kind::RightBrace as u32)
    }

    // Writes the braces of `record E {}`, which stay on one line: the `{` takes the `}` along.
    fn empty_record(&mut self, sink: &mut Sink, token: TokenAt)
        requires ready { Ready self.old sink.old }
        requires in_rows { HasRows token self.old }
        ensures { Puts (empty_record (options_of self.old.options)
            (bare_token LeftBrace (lexeme_of token self.old))) self.old sink.old self.new sink.new }
    {
        let gap = self.gap_before(Kind::LeftBrace);
        write_lexeme(
            sink,
            gap,
            Source {
                rows: self.rows,
                text: self.text,
            },
            token.own,
            Tail::Braces,
        );
        self.at_line_start = false;
        self.prev = Some(Kind::RightBrace as u32);
        self.record_pending = false;
    }

    // Whether a `{` opens a block over several lines: a record, a brace in one, or what is no one-line block.
    fn opens_block(&self, token: TokenAt) -> bool
        requires { HasEnds token self.now }
        ensures { AtToken token self.now (λ t ts. result ≡ opens_block (t ∷ ts) (fields_of self.now)) }
    {
        if self.record_pending || self.in_record {
            return true;
        }
        if self.in_one_line_block() {
            return false;
        }
        let lead = token.lead;
        if self.ends.braces <= lead {
            return true;
        }
        !block_is_single_line(&self.rows[lead..])
    }

    // The record fields after such a `{`: after `record` and its name it opens a record, in a record it goes
    // deeper.
    fn enter_record(&mut self)
        requires { self.old.record_depth.0 < most32 }
        ensures does { (s : Sink) → Puts (update record_entered) self.old s self.new s }
        ensures indent { self.new.indent ≡ self.old.indent }
    {
        if self.record_pending {
            self.record_pending = false;
            self.in_record = true;
            self.record_depth = RecordDepth(1);
        } else if self.in_record {
            self.record_depth.0 += 1;
        }
    }

    // Writes the `{` of a block over several lines, by the brace style. `index` is the token's.
    fn open_block_multiline(&mut self, sink: &mut Sink, index: u32)
        requires can_write { CanWrite self.old sink.old }
        requires index_lt_most32 { index < most32 }
        ensures { Puts (open_block (options_of self.old.options) index) self.old sink.old self.new sink.new }
    {
        match self.options.brace_style {
            BraceStyle::SameLine => self.open_same_line(sink),
            BraceStyle::Allman => self.open_allman(sink, index),
        }
    }

    // Writes a `{` at the end of its line.
    fn open_same_line(&mut self, sink: &mut Sink)
        requires { CanWrite self.old sink.old }
        ensures { Puts (braced open_same_line) self.old sink.old self.new sink.new }
    {
        sink.write_brace(1, b'{');
        self.indent += 1;
        self.at_line_start = false;
        self.prev = Some(Kind::LeftBrace as u32);
    }

    // Writes a `{` on a line of its own.
    fn open_allman(&mut self, sink: &mut Sink, index: u32)
        requires can_write { CanWrite self.old sink.old }
        requires index_lt_most32 { index < most32 }
        ensures { Puts (braced (open_allman (options_of self.old.options) index))
            self.old sink.old self.new sink.new }
    {
        let spaces = self.indent_size();
        sink.write_opener_line(self.at_line_start, spaces);
        self.indent += 1;
        self.suppress_newline_at = Some(index + 1);
        self.at_line_start = true;
        self.prev = Some(Kind::LeftBrace as u32);
    }

    // Opens a one-line block, or a block inside one.
    fn open_one_line(&mut self, sink: &mut Sink)
        requires { Ready self.old sink.old }
        ensures { Puts (open_one_line (options_of self.old.options)) self.old sink.old self.new sink.new }
    {
        let gap = self.indent_or_space();
        if self.omits_brace() {
            sink.write_spaces(gap);
        } else {
            sink.write_brace(gap, b'{');
        }
        self.inline_depth.0 += 1;
        self.at_line_start = false;
        self.prev = Some(Kind::LeftBrace as u32);
    }

    // Whether the `{` of a block inside a one-line block is left out: format.rs writes none at a line's
    // start.
    fn omits_brace(&self) -> bool
        ensures { result ≡ in_one_line_block (fields_of self.now) && self.now.at_line_start }
    {
        self.in_one_line_block() && self.at_line_start
    }
}
