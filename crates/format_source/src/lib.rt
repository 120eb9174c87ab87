// The layout of a source's tokens after its shebang line (specification, 'The shebang wrapper').
#![tactic(auto)]

ghost use Rattle.std.specs.Prelude.{[], ◌++◌, ◌≡◌, ◌+◌, ◌<◌, length, drop};
ghost use Rattle.shared.specs.Bytes.{line_feed};
ghost use Rattle.shared.specs.Lines.{first_line};
ghost use Rattle.format_tokens.specs.Answer.{reported};
ghost use Rattle.format_source.specs.Source.{is_shebang, shebang, before_walk, layout_source};
ghost use Rattle.format_source.specs.Steps.{FitsAfter, line_first};

use format_tokens::{LayoutError, Text, format_tokens_with};
use rows::{OptionNumbers, options};

// Lays out the tokens that `rows` name in `text` with the default options: Allman, 4, 40, 40. Where the
// first line of `source` begins `#!` and not `#![`, that line and a line feed come first: they count in the
// length, and plain is false. Where they do not fit `out`, the answer is Full at token 0. A Deep or Full of
// the layout has the token's index, as without them.
pub fn format_source_with_shebang(
    source: &[u8],
    rows: &[u8],
    text: &[u8],
    out: &mut [u8],
) -> Result<Text, LayoutError>
    ensures answer { reported result
        ≡ (layout_source source.now rows.now text.now
        out.old).report }
    ensures output { out.new
        ≡ (layout_source source.now rows.now text.now
        out.old).out }
{
    let line = shebang_len(source);
    let room = line.min(out.len());
    let options = OptionNumbers {
        style: options::DEFAULT_STYLE,
        indent_width: options::DEFAULT_INDENT_WIDTH,
        signature_width: options::DEFAULT_WIDTH,
        list_width: options::DEFAULT_WIDTH,
    };
    let answer = format_tokens_with(rows, text, &mut out[room..], options);
    if line == 0 {
        return answer;
    }
    if before_walk(answer) {
        return answer;
    }
    let end = line - 1;
    with_line(&source[..end], answer, out)
}

// Returns the length of the shebang line with its line feed, or 0 where there is none.
#[tactic(auto, using(crate::proofs::Lines::line_within_source))]
fn shebang_len(source: &[u8]) -> usize
    ensures { result ≡ length (shebang source.now) }
{
    if is_shebang(source) {
        return line_len(source) + 1;
    }
    0
}

// Tells whether the first line begins `#!` and not `#![`.
#[tactic(auto, using(crate::proofs::Lines::shebang_said))]
fn is_shebang(source: &[u8]) -> bool
    ensures { result ≡ is_shebang (first_line [] source.now) }
{
    source.starts_with(b"#!") && !source.starts_with(b"#![")
}

// Returns the length of the first line without its line feed.
fn line_len(source: &[u8]) -> usize
    ensures { result ≡ length (first_line [] source.now) }
{
    let feed = source.iter().position(|b| *b == b'\n');
    feed.unwrap_or(source.len())
}

// Tells whether an answer is refusal 1, 2 or 3.
fn before_walk(answer: Result<Text, LayoutError>) -> bool
    ensures { result ≡ before_walk (reported answer) }
{
    matches!(
        answer,
        Err(LayoutError::BadOption { .. } | LayoutError::RaggedRows | LayoutError::BadRow { .. })
    )
}

// Puts the line and a line feed first into `out`, which has the layout after them, and answers for both.
// `answer` is the layout's. After a refusal every place of `out` is set to 0.
fn with_line(
    line: &[u8],
    answer: Result<Text, LayoutError>,
    out: &mut [u8],
) -> Result<Text, LayoutError>
    requires { FitsAfter line.now answer out.old }
    ensures answer { reported result
        ≡ (line_first line.now answer out.old).report }
    ensures output { out.new
        ≡ (line_first line.now answer out.old).out }
{
    let start = line.len() + 1;
    if out.len() < start {
        out.fill(0);
        return Err(LayoutError::Full { index: 0 });
    }
    let Ok(text) = answer else {
        out.fill(0);
        return answer;
    };
    put_line(line, out);
    Ok(Text {
        length: start + text.length,
        commas: text.commas,
        plain: false,
    })
}

// Writes the line and a line feed into the first places of `out`. It counts by hand: `copy_from_slice` calls
// memcpy, which the static library is not to need, and of `iter_mut` under `zip` no clause says what it wrote.
fn put_line(line: &[u8], out: &mut [u8])
    requires { length line.now < length out.old }
    ensures { out.new
        ≡ (line.now ++ line_feed) ++ drop (length line.now + 1) out.old }
{
    let end = line.len();
    for i in 0..end {
        out[i] = line[i];
    }
    out[end] = b'\n';
}
