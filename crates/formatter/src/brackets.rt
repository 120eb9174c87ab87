// The arms of round and square brackets and of commas.
ghost use Rattle.std.specs.Prelude.{false, ◌||◌, List, [], ◌∷◌, ◌≡◌, ℕ, ◌+◌, ◌-◌, ◌<◌, length};
ghost use Rattle.std.proofs.Math.Option.{map};
ghost use Rattle.shared.specs.Numbers.{most32};
ghost use Rattle.rows.specs.Kinds.{LeftParen, RightParen, LeftBracket, RightBracket, Comma};
ghost use Rattle.rows.specs.KindNumber.{kind_number};
ghost use Rattle.lookahead.specs.Measure.{should_break_list};
ghost use Rattle.definition.specs.Arms.{at_record_fields, in_broken_list, at_signature, breaks_list};
ghost use Rattle.definition.specs.Arms.{open_list, open_group, break_signature};
ghost use Rattle.definition.specs.Arms.{open_signature, left_paren_arm, left_bracket_arm};
ghost use Rattle.definition.specs.Arms.{close_signature, close_group, right_paren_arm, right_bracket_arm, comma_arm};
ghost use Rattle.definition.specs.PushToken.{overflows};
ghost use Rattle.formatter.specs.CodeState.{fields_of, options_of, signature_of};
ghost use Rattle.formatter.specs.Does.{Puts};
ghost use Rattle.formatter.specs.Stack.{stack_size};
ghost use Rattle.formatter.specs.Token.{CanWrite, CanWriteLexeme, Ready, HasRows, HasEnds};
ghost use Rattle.formatter.specs.Token.{AtToken, AtTokenOf, bare_token, lexeme_of, depth_of};
ghost use Rattle.formatter.specs.Parts.{closes_signature, close_list};

use crate::{FnState, Formatter, SignatureDepth, TokenAt};
use lookahead::{should_break_list, should_break_sig};
use rows::Kind;
use sink::write::{Sink, Tail, count_comma};

impl<'a> Formatter<'a> {
    // `(` opens a signature, a broken list or a group that stays on its line.
    pub fn left_paren_arm(&mut self, sink: &mut Sink, token: TokenAt)
        requires ready { Ready self.old sink.old }
        requires in_rows { HasRows token self.old × HasEnds token self.old }
        requires kind_value { token.kind ≡ LeftParen }
        ensures { AtToken token self.old
            (λ t ts. overflows (options_of self.old.options) t ts (fields_of self.old) ≡ false
            → Puts (left_paren_arm (options_of self.old.options) token.index t ts)
            self.old sink.old self.new sink.new) }
    {
        if self.at_signature() {
            self.open_signature(sink, token);
        } else if self.breaks_list(token) {
            self.open_list(sink, token, Kind::LeftParen);
        } else {
            self.sig_break_depth = deeper(self.sig_break_depth);
            self.open_group(sink, token, Kind::LeftParen);
        }
    }

    // Whether a `(` opens a signature: `fn name (` or `fn (`, outside one-line blocks.
    pub fn at_signature(&self) -> bool
        ensures { result ≡ at_signature (fields_of self.now) }
    {
        !self.in_one_line_block()
            && (self.fn_state == FnState::NAMED || self.fn_state == FnState::AFTER_FN)
    }

    // Whether the list that the token opens breaks: it is wide, and outside one-line blocks and records.
    pub fn breaks_list(&self, token: TokenAt) -> bool
        requires { HasEnds token self.now }
        ensures { (text : List ℕ) → AtTokenOf token self.now.rows.now text
            (λ t ts. result ≡ breaks_list (options_of self.now.options) t ts (fields_of self.now)) }
    {
        !self.in_one_line_block() && !self.in_record && self.list_is_wide(token)
    }

    // Whether the list that the token opens is wider than `list_width`: not where no comma is left, nor where
    // all tokens together are not wider.
    pub fn list_is_wide(&self, token: TokenAt) -> bool
        requires { HasEnds token self.now }
        ensures { (text : List ℕ) → AtTokenOf token self.now.rows.now text
            (λ t ts. result ≡ should_break_list self.now.options.list_width (t ∷ ts)) }
    {
        let ends = self.ends;
        let list_width = self.options.list_width;
        if ends.commas <= token.lead {
            return false;
        }
        if 0 < ends.width && ends.width <= list_width as usize {
            return false;
        }
        should_break_list(&self.rows[token.lead..], list_width)
    }

    // Opens a signature, broken or on its line.
    fn open_signature(&mut self, sink: &mut Sink, token: TokenAt)
        requires ready { Ready self.old sink.old }
        requires in_rows { HasRows token self.old }
        requires kind_value { token.kind ≡ LeftParen }
        ensures { AtToken token self.old
            (λ t ts. Puts (open_signature (options_of self.old.options) token.index t ts)
            self.old sink.old self.new sink.new) }
    {
        self.fn_state = FnState::OUTSIDE;
        if should_break_sig(&self.rows[token.lead..], self.options.fn_sig_width) {
            self.break_signature(sink, token.index);
        } else {
            self.open_group(sink, token, Kind::LeftParen);
        }
    }

    // Opens a broken signature. `index` is the token's.
    fn break_signature(&mut self, sink: &mut Sink, index: u32)
        requires ready { Ready self.old sink.old }
        requires index_lt_most32 { index < most32 }
        ensures { Puts (break_signature (options_of self.old.options) index)
            self.old sink.old self.new sink.new }
    {
        self.indent += 1;
        let spaces = self.indent_size();
        sink.write_signature_line(spaces);
        self.sig_break_depth = Some(SignatureDepth(1));
        self.suppress_newline_at = Some(index + 1);
        self.at_line_start = false;
        self.prev = Some(Kind::LeftParen as u32);
        self.group_depth.0 += 1;
    }

    // Opens a broken list, which has one item a line. `kind` is the token's, a constant in each call.
    fn open_list(&mut self, sink: &mut Sink, token: TokenAt, kind: Kind)
        requires ready { Ready self.old sink.old }
        requires in_rows { HasRows token self.old × (kind_number kind ≡ token.kind) }
        ensures { length self.old.break_stack < stack_size
            → Puts (open_list (options_of self.old.options) token.index
            (bare_token (kind_number kind) (lexeme_of token self.old))) self.old sink.old self.new sink.new }
    {
        self.emit_token_text(sink, token, kind, Tail::Feed);
        self.group_depth.0 += 1;
        self.break_stack.push(self.group_depth.0 as u32);
        self.indent += 1;
        self.suppress_newline_at = Some(token.index + 1);
        self.at_line_start = true;
    }

    // Opens a group that stays on its line. `kind` is the token's, a constant in each call.
    fn open_group(&mut self, sink: &mut Sink, token: TokenAt, kind: Kind)
        requires can_write_lexeme { CanWriteLexeme self.old sink.old × (self.old.group_depth.0 < most32) }
        requires in_rows { HasRows token self.old × (kind_number kind ≡ token.kind) }
        ensures { Puts (open_group (options_of self.old.options)
            (bare_token (kind_number kind) (lexeme_of token self.old))) self.old sink.old self.new sink.new }
    {
        self.push_lexeme(sink, token, kind);
        self.group_depth.0 += 1;
    }

    // `[` opens a broken list or a group that stays on its line.
    pub fn left_bracket_arm(&mut self, sink: &mut Sink, token: TokenAt)
        requires ready { Ready self.old sink.old }
        requires in_rows { HasRows token self.old × HasEnds token self.old }
        requires kind_value { token.kind ≡ LeftBracket }
        ensures { AtToken token self.old
            (λ t ts. overflows (options_of self.old.options) t ts (fields_of self.old) ≡ false
            → Puts (left_bracket_arm (options_of self.old.options) token.index t ts)
            self.old sink.old self.new sink.new) }
    {
        if self.breaks_list(token) {
            self.open_list(sink, token, Kind::LeftBracket);
        } else {
            self.open_group(sink, token, Kind::LeftBracket);
        }
    }

    // `)` closes a broken signature, a broken list or a group that stays on its line.
    pub fn right_paren_arm(&mut self, sink: &mut Sink, token: TokenAt)
        requires ready { Ready self.old sink.old }
        requires in_rows { HasRows token self.old × (token.kind ≡ RightParen) }
        ensures { AtToken token self.old
            (λ t ts. Puts (right_paren_arm (options_of self.old.options) t)
            self.old sink.old self.new sink.new) }
    {
        if self.closes_signature() {
            self.close_signature(sink);
            return;
        }
        self.sig_break_depth = shallower(self.sig_break_depth);
        if self.in_broken_list() {
            self.close_list(sink, false, b')', Kind::RightParen);
        } else {
            self.close_group(sink, token, Kind::RightParen);
        }
    }

    // Whether a `)` closes a broken signature.
    pub fn closes_signature(&self) -> bool
        ensures { result ≡ closes_signature (fields_of self.now) }
    {
        self.sig_break_depth.is_some_and(|depth| depth.0 < 2)
    }

    // Whether a `)` closes a broken signature or a broken list.
    pub fn closes_broken(&self) -> bool
        ensures { result ≡ closes_signature (fields_of self.now) || in_broken_list (fields_of self.now) }
    {
        self.closes_signature() || self.in_broken_list()
    }

    // Writes the `)` of a broken signature, at the indent of its parameters; the indent goes back after it.
    fn close_signature(&mut self, sink: &mut Sink)
        requires { CanWrite self.old sink.old }
        ensures { Puts (close_signature (options_of self.old.options)) self.old sink.old self.new sink.new }
    {
        let spaces = self.indent_size();
        sink.write_closer(false, self.at_line_start, spaces, b')');
        self.sig_break_depth = None;
        self.indent = self.indent.saturating_sub(1);
        self.group_depth.0 = self.group_depth.0.saturating_sub(1);
        self.at_line_start = false;
        self.prev = Some(Kind::RightParen as u32);
    }

    // Writes the closer of a broken list, of this kind, and a comma before it where one is wanted.
    fn close_list(&mut self, sink: &mut Sink, wanted: bool, closer: u8, kind: Kind)
        requires { CanWrite self.old sink.old × (self.old.commas < most32) }
        ensures { Puts (close_list (options_of self.old.options) wanted (closer ∷ []) (kind_number kind))
            self.old sink.old self.new sink.new }
    {
        self.break_stack.pop();
        self.indent = self.indent.saturating_sub(1);
        let spaces = self.indent_size();
        sink.write_closer(wanted, self.at_line_start, spaces, closer);
        self.commas += count_comma(wanted);
        self.group_depth.0 = self.group_depth.0.saturating_sub(1);
        self.at_line_start = false;
        self.prev = Some(kind as u32);
    }

    // Writes the closer of a group that stays on its line. `kind` is the token's, a constant in each call.
    fn close_group(&mut self, sink: &mut Sink, token: TokenAt, kind: Kind)
        requires can_write_lexeme { CanWriteLexeme self.old sink.old }
        requires in_rows { HasRows token self.old × (kind_number kind ≡ token.kind) }
        ensures { Puts (close_group (options_of self.old.options)
            (bare_token (kind_number kind) (lexeme_of token self.old))) self.old sink.old self.new sink.new }
    {
        self.push_lexeme(sink, token, kind);
        self.group_depth.0 = self.group_depth.0.saturating_sub(1);
    }

    // `]` closes a broken list or a group that stays on its line.
    pub fn right_bracket_arm(&mut self, sink: &mut Sink, token: TokenAt)
        requires ready { Ready self.old sink.old }
        requires in_rows { HasRows token self.old × (token.kind ≡ RightBracket) }
        ensures { AtToken token self.old
            (λ t ts. Puts (right_bracket_arm (options_of self.old.options) t)
            self.old sink.old self.new sink.new) }
    {
        if self.in_broken_list() {
            let wanted = !self.prev_is(Kind::Comma as u32);
            self.close_list(sink, wanted, b']', Kind::RightBracket);
        } else {
            self.close_group(sink, token, Kind::RightBracket);
        }
    }

    // `,` ends its line or is a lexeme like others.
    pub fn comma_arm(&mut self, sink: &mut Sink, token: TokenAt)
        requires ready { Ready self.old sink.old }
        requires in_rows { HasRows token self.old × (token.kind ≡ Comma) }
        ensures { AtToken token self.old
            (λ t ts. Puts (comma_arm (options_of self.old.options) token.index t)
            self.old sink.old self.new sink.new) }
    {
        if self.breaks_comma() {
            sink.write_comma_line();
            self.suppress_newline_at = Some(token.index + 1);
            self.at_line_start = true;
            self.prev = Some(Kind::Comma as u32);
        } else {
            self.push_lexeme(sink, token, Kind::Comma);
        }
    }

    // Whether a `,` ends its line: after a record's field, or after an item of a broken list.
    pub fn breaks_comma(&self) -> bool
        ensures { result ≡ at_record_fields (fields_of self.now) || in_broken_list (fields_of self.now) }
    {
        self.at_record_fields() || self.in_broken_list()
    }
}

// `sig_break_depth` after a `(`: in a broken signature it is one more.
fn deeper(signature: Option<SignatureDepth>) -> Option<SignatureDepth>
    requires { depth_of signature < most32 }
    ensures { signature_of result ≡ map (λ d. d + 1) (signature_of signature) }
{
    signature.map(|depth| SignatureDepth(depth.0 + 1))
}

// `sig_break_depth` after a `)` that does not end a broken signature.
fn shallower(signature: Option<SignatureDepth>) -> Option<SignatureDepth>
    ensures { signature_of result ≡ map (λ d. d - 1) (signature_of signature) }
{
    signature.map(|depth| SignatureDepth(depth.0.saturating_sub(1)))
}
