// The arms of `else` and of all other tokens, `push_lexeme`, `emit_token_text` and `track_fn_state`.
ghost use Rattle.std.specs.Prelude.{cond, ◌&&◌, ◌||◌, ◌≡◌, ◌≤◌, ◌<◌, eqb};
ghost use Rattle.rows.specs.Kinds.{Else, Record, Identifier, Other};
ghost use Rattle.rows.specs.KindNumber.{kind_number};
ghost use Rattle.definition.specs.Act.{update};
ghost use Rattle.definition.specs.Emit.{track_fn_state, track_minus, push_lexeme};
ghost use Rattle.definition.specs.Arms.{else_arm, else_on_new_line, other_arm};
ghost use Rattle.sink.specs.Tail.{tail_bytes};
ghost use Rattle.sink.specs.Sink.{past_gap};
ghost use Rattle.sink.specs.declared.write.Sink.{Sink};
ghost use Rattle.formatter.specs.CodeState.{Locals, code_state, fields_of, fn_number, formatter_of, options_of};
ghost use Rattle.formatter.specs.Does.{Does, Puts};
ghost use Rattle.formatter.specs.Token.{CanWriteLexeme, Ready, HasRows, Kept, IndentBounds, AtToken};
ghost use Rattle.formatter.specs.Token.{bare_token, kind_of, lexeme_of};
ghost use Rattle.formatter.specs.Parts.{gap_size, indent_or_space_size, emit_tail};

use crate::{FnState, Formatter, TokenAt};
use row_writers::{Source, write_lexeme};
use rows::Kind;
use sink::write::{Sink, Tail};
use spaces::is_value_kind;
use spaces::loose::{loose_after, spaces_between};

impl<'a> Formatter<'a> {
    // `else` starts a line after the `}` of a block over several lines, or is a lexeme like others.
    // `inline_close` is true where the `}` of a one-line block stands right before it.
    pub fn else_arm(&mut self, sink: &mut Sink, token: TokenAt, inline_close: bool)
        requires ready { Ready self.old sink.old }
        requires in_rows { HasRows token self.old × (token.kind ≡ Else) }
        ensures { AtToken token self.old (λ t ts. (x : Locals) → x.inline_close ≡ inline_close
            → Does (else_arm (options_of self.old.options) t) x
            (code_state self.old sink.old) (code_state self.new sink.new)) }
    {
        if self.else_on_new_line(inline_close) {
            let spaces = self.indent_size();
            sink.write_else(spaces);
            self.at_line_start = false;
            self.prev = Some(Kind::Else as u32);
        } else {
            self.push_lexeme(sink, token, Kind::Else);
        }
    }

    // Whether `else` starts a line.
    fn else_on_new_line(&self, inline_close: bool) -> bool
        ensures { (x : Locals) → x.inline_close ≡ inline_close
            → result ≡ else_on_new_line (formatter_of self.now x) }
    {
        !self.in_one_line_block()
            && !self.in_record
            && !inline_close
            && self.prev_is(Kind::RightBrace as u32)
    }

    // Any other token writes its lexeme. `record` sets `record_pending`, a name leaves it, anything else
    // clears it.
    pub fn other_arm(&mut self, sink: &mut Sink, token: TokenAt)
        requires ready { Ready self.old sink.old }
        requires in_rows { HasRows token self.old }
        ensures { AtToken token self.old
            (λ t ts. Puts (other_arm (options_of self.old.options) t) self.old sink.old self.new sink.new) }
    {
        self.record_pending = record_pending_after(self.record_pending, token.kind);
        self.push_lexeme(sink, token, token.kind());
    }

    // Writes the spaces and the token's lexeme, and tracks `prev` and whether a `-` is unary. `kind` is the
    // token's, a constant in most arms: read from the token here, functions take 5 in 100 more, and the small
    // list misses its bar.
    pub fn push_lexeme(&mut self, sink: &mut Sink, token: TokenAt, kind: Kind)
        requires can_write_lexeme { CanWriteLexeme self.old sink.old }
        requires in_rows { HasRows token self.old × (kind_number kind ≡ token.kind) }
        ensures does { Puts (push_lexeme (options_of self.old.options)
            (bare_token (kind_number kind) (lexeme_of token self.old))) self.old sink.old self.new sink.new }
        ensures kept { Kept self.old self.new }
    {
        let unary = self.minus_is_unary_after(kind);
        self.emit_token_text(sink, token, kind, Tail::Nothing);
        self.prev_minus_is_unary = unary;
    }

    // Writes the spaces, the token's lexeme and the tail after it, and tracks `prev`; it does not track
    // whether a `-` is unary.
    pub fn emit_token_text(&mut self, sink: &mut Sink, token: TokenAt, kind: Kind, tail: Tail)
        requires can_write_lexeme { CanWriteLexeme self.old sink.old }
        requires in_rows { HasRows token self.old × (kind_number kind ≡ token.kind) }
        ensures does { Puts (emit_tail (options_of self.old.options)
            (bare_token (kind_number kind) (lexeme_of token self.old)) (tail_bytes tail))
            self.old sink.old self.new sink.new }
        ensures kept { Kept self.old self.new }
    {
        let gap = self.gap_before(kind);
        write_lexeme(
            sink,
            gap,
            Source {
                rows: self.rows,
                text: self.text,
            },
            token.own,
            tail,
        );
        self.at_line_start = false;
        self.prev = Some(kind as u32);
    }

    // How many spaces stand before a token of this kind: the indent at a line's start, else one or none.
    pub fn gap_before(&self, kind: Kind) -> usize
        requires indent_bounds { IndentBounds self.now }
        requires kind_bound { kind_of self.now.prev ≤ Other }
        ensures { (result ≡ gap_size (options_of self.now.options) (kind_number kind) (fields_of self.now))
            × (result < past_gap) }
    {
        if self.at_line_start {
            return self.indent_size();
        }
        match self.prev {
            None => 0,
            Some(prev) => {
                spaces_between(
                    loose_after(kind as u32, self.prev_minus_is_unary),
                    Kind::of(prev),
                    kind,
                )
            }
        }
    }

    // How many spaces `push_trivia_gap` of format.rs writes: the indent at a line's start, else one.
    pub fn indent_or_space(&self) -> usize
        requires { IndentBounds self.now }
        ensures { (result ≡ indent_or_space_size (options_of self.now.options) (fields_of self.now))
            × (result < past_gap) }
    {
        if self.at_line_start {
            return self.indent_size();
        }
        1
    }

    // `prev_minus_is_unary` after a token of this kind.
    fn minus_is_unary_after(&self, kind: Kind) -> bool
        ensures { result ≡ (track_minus (kind_number kind) (fields_of self.now)).prev_minus_is_unary }
    {
        if kind == Kind::Minus {
            !self.prev.is_some_and(|prev| is_value_kind(prev))
        } else {
            self.prev_minus_is_unary
        }
    }

    // Tracks `fn name (`, after a token whose kind has this number. `OUTSIDE`, which is most frequent, is
    // asked for first.
    pub fn track_fn_state(&mut self, kind: u32)
        ensures { (s : Sink) → Puts (update (track_fn_state kind)) self.old s self.new s }
    {
        if kind != Kind::Fn as u32 && self.fn_state == FnState::OUTSIDE {
            return;
        }
        if self.in_broken_signature() {
            return;
        }
        if kind == Kind::Fn as u32 {
            self.fn_state = FnState::AFTER_FN;
        } else if kind == Kind::Identifier as u32 {
            self.fn_state = named_after(self.fn_state);
        } else if kind != Kind::Newline as u32 {
            self.fn_state = FnState::OUTSIDE;
        }
    }
}

// `fn_state` after a name, by whether `fn` stands before it.
pub fn named_after(state: FnState) -> FnState
    ensures { fn_number result ≡ cond (eqb (fn_number state) 1) 2 0 }
{
    if state == FnState::AFTER_FN {
        return FnState::NAMED;
    }
    FnState::OUTSIDE
}

// Answers whether a record is pending after a token whose kind has this number: `record` arms the record
// layout, a name leaves it armed, anything else disarms it.
pub fn record_pending_after(pending: bool, kind: u32) -> bool
    ensures { result ≡ eqb kind Record || (eqb kind Identifier && pending) }
{
    kind == Kind::Record as u32 || kind == Kind::Identifier as u32 && pending
}
