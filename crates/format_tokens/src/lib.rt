// The layout of rl source text (docs/SPECIFICATION.md): token rows in, text out.
#![tactic(auto)]

ghost use Rattle.std.specs.Prelude.{true, ◌≡◌, ◌≤◌, length};
ghost use Rattle.rows.specs.Options;
ghost use Rattle.rows.specs.Checks.{most_row_bytes, GoodRows};
ghost use Rattle.rows.specs.Token.{tokens_of};
ghost use Rattle.definition.specs.Plain.{plain as plain_mark};
ghost use Rattle.definition.specs.Layout.{layout};
ghost use Rattle.formatter.specs.CodeState.{options_of};
ghost use Rattle.formatter.specs.Format.{CheckedRows, LaidOut};
ghost use Rattle.format_tokens.specs.Answer.{reported};

pub use error::LayoutError;
use formatter::{BraceStyle, Finished, Formatter, Options, WalkError};
use plain::plain_mark;
use row_writers::Source;
use rows::{MOST_ROWS, OptionNumbers, ROW_BYTES, check_unless_known};
use sink::write::Sink;

mod error;

// A text that is laid out: its length, the number of inserted commas, and the plain mark.
#[derive(Clone, Copy, Debug, PartialEq, Eq)]
pub struct Text {
    pub length: usize,
    pub commas: usize,
    pub plain: bool,
}

// Lays out the tokens that `rows` name in `text`, and writes their text into the first places of `out`. The
// rest of `out` is unchanged. After refusals 1, 2 and 3 all of it is unchanged; after 4 and 5 every place
// is 0. Style 0 is SameLine, 1 Allman.
pub fn format_tokens_with(
    rows: &[u8],
    text: &[u8],
    out: &mut [u8],
    options: OptionNumbers,
) -> Result<Text, LayoutError>
    ensures answer { reported result
        ≡ (layout options.style options.indent_width options.signature_width options.list_width
        rows.now text.now out.old).report }
    ensures output { out.new
        ≡ (layout options.style options.indent_width options.signature_width options.list_width
        rows.now text.now out.old).out }
{
    // The mark is told first: its pass finds bad rows too, so that plain rows are passed over once.
    let plain = is_plain(rows, text);
    check_unless_known(options, rows, text, plain)?;
    match lay_out(options_of(options), rows, text, out, plain) {
        Ok(Finished { length, commas }) => Ok(Text {
            length,
            commas,
            plain,
        }),
        Err(error) => {
            out.fill(0);
            Err(error.into())
        }
    }
}

// Returns the plain mark of good rows, and false where a row is bad. Too many rows are not looked at.
fn is_plain(rows: &[u8], text: &[u8]) -> bool
    ensures good { result ≡ true → GoodRows rows.now (length text.now) }
    ensures mark { length rows.now ≤ most_row_bytes
        → GoodRows rows.now (length text.now)
        → result ≡ plain_mark (tokens_of rows.now text.now) }
{
    if MOST_ROWS < rows.len() / ROW_BYTES {
        return false;
    }
    plain_mark(rows, text)
}

// Returns the four options as the formatter has them.
fn options_of(numbers: OptionNumbers) -> Options
    ensures options { options_of result
        ≡ Rattle.rows.specs.Options.options_of numbers.style numbers.indent_width numbers.signature_width
        numbers.list_width }
    ensures indent { result.indent_width ≡ numbers.indent_width }
{
    let brace_style = if numbers.style == 0 {
        BraceStyle::SameLine
    } else {
        BraceStyle::Allman
    };
    Options {
        indent_width: numbers.indent_width,
        fn_sig_width: numbers.signature_width,
        list_width: numbers.list_width,
        brace_style,
    }
}

// The walk over checked rows. It writes the text into `out`, and answers how it ended. Where the tokens are
// plain there is no trivia, and it looks for none.
fn lay_out(
    options: Options,
    rows: &[u8],
    text: &[u8],
    out: &mut [u8],
    plain: bool,
) -> Result<Finished, WalkError>
    requires checked_rows { CheckedRows rows.now text.now }
    requires indent_width_bound { options.indent_width ≤ Rattle.rows.specs.Options.most_indent_width }
    requires plain_value { plain ≡ plain_mark (tokens_of rows.now text.now) }
    ensures { LaidOut rows.now text.now (options_of options) out.old result
        out.new }
{
    let mut sink = Sink { out, len: 0 };
    let mut formatter = Formatter::new(options, Source { rows, text }, plain);
    formatter.format(&mut sink)
}
