// `format`, the loop over the tokens, and `push_token` with the arm of a token's kind.
ghost use Rattle.std.specs.Prelude.{true, false, not, ◌&&◌, ◌≡◌, ◌+◌, ◌≤◌, ◌<◌, eqb, ltb, length, IfOk};
ghost use Rattle.shared.specs.Numbers.{most32};
ghost use Rattle.rows.specs.Options.{most_indent_width};
ghost use Rattle.rows.specs.Row.{row_size};
ghost use Rattle.definition.specs.PushToken.{arm, overflows};
ghost use Rattle.formatter.specs.declared.WalkError.TheVariants.{Full};
ghost use Rattle.formatter.specs.CodeState.{Locals, code_state, fields_of, options_of};
ghost use Rattle.formatter.specs.Does.{Does};
ghost use Rattle.formatter.specs.Token.{Ready, HasRows, HasEnds, AtToken};
ghost use Rattle.formatter.specs.Parts.{returns_early, took_next};
ghost use Rattle.formatter.specs.Format.{Fresh, CheckedRows, LaidOut, NextToken, NextPlace, NoTriviaIf};
ghost use Rattle.formatter.specs.Format.{HasToken, TokenPushed};

use crate::token::{Place, ends_of, place_at, token_at};
use crate::{Finished, Formatter, TokenAt, WalkError};
use rows::{Kind, ROW_BYTES};
use sink::write::Sink;

// The kinds that have an arm of their own, as rows have them.
const EOF: u32 = Kind::Eof as u32;

const NEWLINE: u32 = Kind::Newline as u32;

const RIGHT_BRACE: u32 = Kind::RightBrace as u32;

const LEFT_BRACE: u32 = Kind::LeftBrace as u32;

const LEFT_PAREN: u32 = Kind::LeftParen as u32;

const LEFT_BRACKET: u32 = Kind::LeftBracket as u32;

const RIGHT_PAREN: u32 = Kind::RightParen as u32;

const RIGHT_BRACKET: u32 = Kind::RightBracket as u32;

const COMMA: u32 = Kind::Comma as u32;

const ELSE: u32 = Kind::Else as u32;

impl<'a> Formatter<'a> {
    // Lays out all tokens of checked rows into an empty sink, and tells how that ends.
    pub fn format(&mut self, sink: &mut Sink) -> Result<Finished, WalkError>
        requires fresh { Fresh self.old sink.old × (self.old.options.indent_width ≤ most_indent_width) }
        requires checked_rows { CheckedRows self.old.rows.now self.old.text.now }
        requires no_trivia_if { NoTriviaIf self.old.bare self.old.rows.now }
        ensures laid_out { LaidOut self.old.rows.now self.old.text.now
            (options_of self.old.options) sink.old.out.now result sink.new.out.now }
        ensures length { IfOk result (λ f. sink.new.len ≡ f.length) }
        ensures lent { sink.new.out.ghost_name ≡ sink.old.out.ghost_name }
    {
        self.ends = ends_of(self.rows, self.options.list_width);
        let mut place = Place { at: 0, index: 0 };
        // No iterator over rows: a token takes as many rows as it has.
        while place.at < self.rows.len() {
            let token = token_at(self.rows, place.at, place.index, self.bare);
            self.push_token(sink, token)?;
            place = self.next_place(token);
            if self.may_start_fast_tokens(place.at) {
                let at = self.push_fast_tokens(sink, place.at);
                place = place_at(place, at);
            } else if self.may_start_fast_braces(place.at) {
                let at = self.push_fast_braces(sink, place.at);
                place = place_at(place, at);
            }
        }
        Ok(Finished {
            length: sink.len,
            commas: self.commas,
        })
    }

    // Lays out a token with its trivia.
    fn push_token(&mut self, sink: &mut Sink, token: TokenAt) -> Result<(), WalkError>
        requires { HasToken token self.old sink.old }
        ensures { TokenPushed token (code_state self.old sink.old) result (code_state self.new sink.new) }
    {
        let inline_close = self.takes_inline_close(token);
        if token.lead == token.own {
            self.just_closed_inline = false;
        } else {
            self.push_leading(sink, token);
            if sink.is_full() {
                return Err(full_at(token));
            }
        }
        if self.overflows(token) {
            return Err(WalkError::Deep {
                index: token.index as usize,
            });
        }
        let trails = self.writes_trailing(token);
        self.push_arm(sink, token, inline_close);
        if trails {
            self.push_trailing(sink, token);
        }
        self.track_fn_state(token.kind);
        if sink.is_full() {
            return Err(full_at(token));
        }
        Ok(())
    }

    // Does the arm of the token's kind; they stand in the order of format.rs. `inline_close` is true where
    // the `}` of a one-line block stands right before the token.
    fn push_arm(&mut self, sink: &mut Sink, token: TokenAt, inline_close: bool)
        requires ready { Ready self.old sink.old }
        requires in_rows { HasRows token self.old × HasEnds token self.old }
        ensures { AtToken token self.old (λ t ts. (x : Locals) → x.inline_close ≡ inline_close
            → overflows (options_of self.old.options) t ts (fields_of self.old) ≡ false
            → Does (arm (options_of self.old.options) token.index t ts) x
            (code_state self.old sink.old) (code_state self.new sink.new)) }
    {
        match token.kind {
            EOF => {}
            NEWLINE => self.newline_arm(sink, token),
            RIGHT_BRACE => self.right_brace_arm(sink),
            LEFT_BRACE => self.left_brace_arm(sink, token),
            LEFT_PAREN => self.left_paren_arm(sink, token),
            LEFT_BRACKET => self.left_bracket_arm(sink, token),
            RIGHT_PAREN => self.right_paren_arm(sink, token),
            RIGHT_BRACKET => self.right_bracket_arm(sink, token),
            COMMA => self.comma_arm(sink, token),
            ELSE => self.else_arm(sink, token, inline_close),
            _ => self.other_arm(sink, token),
        }
    }

    // Whether the `}` of a one-line block stands right before the token, without trivia between.
    fn takes_inline_close(&self, token: TokenAt) -> bool
        ensures { result ≡ eqb token.lead token.own && self.now.just_closed_inline }
    {
        token.lead == token.own && self.just_closed_inline
    }

    // Whether refusal 4 is due: the stack is full, and the token would open one more broken list.
    fn overflows(&self, token: TokenAt) -> bool
        requires { HasEnds token self.now }
        ensures { AtToken token self.now
            (λ t ts. result ≡ overflows (options_of self.now.options) t ts (fields_of self.now)) }
    {
        if !self.break_stack.is_full() {
            return false;
        }
        match token.kind {
            LEFT_PAREN => !self.at_signature() && self.breaks_list(token),
            LEFT_BRACKET => self.breaks_list(token),
            _ => false,
        }
    }

    // Whether the token has trailing trivia, and its arm does not return before them.
    fn writes_trailing(&self, token: TokenAt) -> bool
        requires { (token.own + row_size ≤ token.next) × (token.next ≤ length self.now.rows.now) }
        ensures { AtToken token self.now (λ t ts. result ≡ ltb (token.own + row_size) token.next
            && not (returns_early t ts (fields_of self.now))) }
    {
        if token.next == token.own + ROW_BYTES {
            return false;
        }
        match token.kind {
            LEFT_BRACE => !self.empties_record(token),
            RIGHT_PAREN => !self.closes_broken(),
            RIGHT_BRACKET => !self.in_broken_list(),
            _ => true,
        }
    }

    // Where the next token's rows start, and its index. The `{` of `record E {}` took the `}` along.
    fn next_place(&self, token: TokenAt) -> Place
        requires next_in_bounds { (token.next ≤ length self.now.rows.now)
            × (token.index + 1 < most32) }
        requires next_token { took_next token.kind self.now.prev ≡ true
            → NextToken self.now.rows.now token.next self.now.bare }
        ensures { NextPlace self.now.rows.now token (took_next token.kind self.now.prev) result }
    {
        let at = token.next;
        let index = token.index + 1;
        if token.kind == LEFT_BRACE && self.prev_is(RIGHT_BRACE) {
            let taken = token_at(self.rows, at, index, self.bare);
            return Place {
                at: taken.next,
                index: index + 1,
            };
        }
        Place { at, index }
    }
}

// Refusal 5 at this token.
fn full_at(token: TokenAt) -> WalkError
    ensures { result ≡ Full token.index }
{
    WalkError::Full {
        index: token.index as usize,
    }
}
