// The formatter of format.rs: its state and its methods, under the names that they have there. What it writes
// goes to a sink, which is lent to the methods that write. It is no field: of an output that is lent two
// structs deep the checker knows nothing once the formatter is gone.
#![tactic(auto)]

ghost use Rattle.std.specs.Prelude.{◌≡◌, ◌*◌, ◌<◌, min};
ghost use Rattle.rows.specs.Kinds.{Other};
ghost use Rattle.rows.specs.KindNumber.{kind_number};
ghost use Rattle.definition.specs.Emit.{is_at, is_some};
ghost use Rattle.definition.specs.Arms.{at_record_fields, in_broken_list, in_one_line_block};
ghost use Rattle.sink.specs.Sink.{past_gap};
ghost use Rattle.sink.specs.declared.write.Sink.{Sink};
ghost use Rattle.formatter.specs.CodeState.{prev_of, signature_of, fields_of};
ghost use Rattle.formatter.specs.Token.{IndentBounds};
ghost use Rattle.formatter.specs.Format.{Fresh, Ending};

pub mod braces;
pub mod brackets;
pub mod fast_braces;
pub mod fast_tokens;
pub mod format;
pub mod lexeme;
pub mod lines;
pub mod stack;
pub mod token;
pub mod trivia;

use crate::stack::Stack;
use crate::token::ends_not_sought;
use row_writers::Source;
use rows::Kind;

// How far the walk has come in `fn name (`: `fn_state`, a number in format.rs.
#[derive(Clone, Copy, Debug, PartialEq, Eq)]
pub struct FnState(pub u8);

impl FnState {
    // It is in no such place.
    pub const OUTSIDE: FnState = FnState(0);

    // `fn` stands before.
    pub const AFTER_FN: FnState = FnState(1);

    // `fn` and a name stand before.
    pub const NAMED: FnState = FnState(2);
}

// Four counts have a type of their own each, so that none is taken for another. This one says how many parens
// are open in a broken signature.
#[derive(Clone, Copy)]
pub struct SignatureDepth(pub u32);

// How many round and square brackets are open.
#[derive(Clone, Copy)]
pub struct GroupDepth(pub usize);

// How many braces of one-line blocks are open.
#[derive(Clone, Copy)]
pub struct InlineDepth(pub usize);

// How many braces are open in a record.
#[derive(Clone, Copy)]
pub struct RecordDepth(pub usize);

// Where the `{` of a block over several lines stands.
#[derive(Clone, Copy)]
pub enum BraceStyle {
    // It ends the line that opens the block.
    SameLine,
    // It has a line of its own.
    Allman,
}

// The four options of a layout.
#[derive(Clone, Copy)]
pub struct Options {
    pub brace_style: BraceStyle,
    pub indent_width: u32,
    pub fn_sig_width: u32,
    pub list_width: u32,
}

// A token: its kind's number as its row has it, its index among the tokens, where its leading rows start,
// where its own row starts, and where its trailing rows end.
#[derive(Clone, Copy)]
pub struct TokenAt {
    pub kind: u32,
    pub index: u32,
    pub lead: usize,
    pub own: usize,
    pub next: usize,
}

// What all rows tell at once. `commas` and `braces` are the indexes after the last Comma and after the last
// `}`, or the rows' end where they were not looked for: from there on no list breaks, and no block is one
// line. `width` is the width of all tokens together, as a list's width counts them; it is 0 where it was not
// measured.
#[derive(Clone, Copy)]
pub struct Ends {
    pub commas: usize,
    pub braces: usize,
    pub width: usize,
}

// The fields of format.rs under its names. The port adds what format.rs has in parameters: the options, the
// rows and the text, what all rows tell, and whether no row is trivia; and `commas`, the number of inserted
// commas. `prev` is the number of the last token's kind, as its row has it. The rows and the text are fields
// of their own: where a `Copy` struct holds a `Source`, the checker finds no plan for methods that borrow it.
#[derive(Clone, Copy)]
pub struct Formatter<'a> {
    pub options: Options,
    pub rows: &'a [u8],
    pub text: &'a [u8],
    pub ends: Ends,
    pub bare: bool,
    pub indent: usize,
    pub at_line_start: bool,
    pub prev: Option<u32>,
    pub prev_minus_is_unary: bool,
    pub inline_depth: InlineDepth,
    pub fn_state: FnState,
    pub sig_break_depth: Option<SignatureDepth>,
    pub record_pending: bool,
    pub in_record: bool,
    pub record_depth: RecordDepth,
    pub just_closed_inline: bool,
    pub suppress_newline_at: Option<u32>,
    pub group_depth: GroupDepth,
    pub break_stack: Stack,
    pub commas: usize,
}

// What a layout of all tokens comes to: the text has this many bytes, and this many commas in it were
// inserted.
#[derive(Clone, Copy)]
pub struct Finished {
    pub length: usize,
    pub commas: usize,
}

// Why a layout stops.
#[derive(Clone, Copy, Debug, PartialEq, Eq)]
pub enum WalkError {
    // Refusal 4: the broken-group stack is full, and the token at this index would open one more broken list.
    Deep { index: usize },
    // Refusal 5: the text of the token at this index does not fit the output.
    Full { index: usize },
}

impl TokenAt {
    // The token's kind. Every number above 34 is `Other`.
    pub fn kind(self) -> Kind
        ensures { kind_number result ≡ min self.kind Other }
    {
        Kind::of(self.kind)
    }
}

impl<'a> Formatter<'a> {
    // The state before the first token of `source`. Where `bare` is true, no row is trivia.
    pub fn new(options: Options, source: Source<'a>, bare: bool) -> Self
        ensures fresh { (s : Sink) → s.len ≡ 0 → Fresh result s }
        ensures ends { Ending source.entry.rows.now result.ends }
        ensures given { (result.options ≡ options) × (result.rows ≡ source.entry.rows)
            × (result.text ≡ source.entry.text) × (result.bare ≡ bare) }
    {
        Formatter {
            options,
            rows: source.rows,
            text: source.text,
            ends: ends_not_sought(source.rows),
            bare,
            indent: 0,
            at_line_start: true,
            prev: None,
            prev_minus_is_unary: false,
            inline_depth: InlineDepth(0),
            fn_state: FnState::OUTSIDE,
            sig_break_depth: None,
            record_pending: false,
            in_record: false,
            record_depth: RecordDepth(0),
            just_closed_inline: false,
            suppress_newline_at: None,
            group_depth: GroupDepth(0),
            break_stack: Stack::new(),
            commas: 0,
        }
    }

    // ---- tests that several arms make

    // Whether the last token has the kind of this number.
    pub fn prev_is(&self, kind: u32) -> bool
        ensures { result ≡ is_at (prev_of self.now.prev) kind }
    {
        self.prev == Some(kind)
    }

    // Whether the walk is inside a block that stays on its line.
    pub fn in_one_line_block(&self) -> bool
        ensures { result ≡ in_one_line_block (fields_of self.now) }
    {
        0 < self.inline_depth.0
    }

    // Whether the walk is directly inside a record, and in no brace within it.
    pub fn at_record_fields(&self) -> bool
        ensures { result ≡ at_record_fields (fields_of self.now) }
    {
        self.in_record && self.record_depth.0 == 1
    }

    // Whether the walk is directly inside the innermost broken list, and in no group within it.
    pub fn in_broken_list(&self) -> bool
        ensures { result ≡ in_broken_list (fields_of self.now) }
    {
        self.break_stack.has_last(self.group_depth.0)
    }

    // Whether the walk is in a broken signature.
    pub fn in_broken_signature(&self) -> bool
        ensures { result ≡ is_some (signature_of self.now.sig_break_depth) }
    {
        self.sig_break_depth.is_some()
    }

    // How many spaces an indent has: the length of `indent_str` in format.rs. Such a gap has no type of its
    // own: each is added to a length at once, and the type would be taken off there.
    pub fn indent_size(&self) -> usize
        requires { IndentBounds self.now }
        ensures { (result ≡ self.now.options.indent_width * self.now.indent) × (result < past_gap) }
    {
        (self.options.indent_width as usize) * self.indent
    }
}
