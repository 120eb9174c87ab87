// Laying out and reading back (demand 3): the text that a layout writes is read into pieces at once.
#![tactic(auto)]

ghost use Rattle.std.specs.Prelude.{◌≡◌, length};
ghost use Rattle.definition.specs.Layout.{layout};
ghost use Rattle.definition.specs.Demand3.{lexemes, FirstHalfOf};
ghost use Rattle.format_tokens.specs.Answer as Laid;
ghost use Rattle.pieces.specs.Answer as Read;
ghost use Rattle.read_back.specs.ReadBack.{seen, read_back_answer, read_back_slots};
ghost use Rattle.read_back.specs.Steps.{Fits};

use format_tokens::{LayoutError, Text, format_tokens_with};
use pieces::{ReadError, read_pieces};
use rows::OptionNumbers;

// What the layout answers, and what reading its text answers. After a refusal nothing is read, and `read`
// tells of 0 pieces.
#[derive(Clone, Copy, Debug, PartialEq, Eq)]
pub struct ReadBack {
    pub laid: Result<Text, LayoutError>,
    pub read: Result<usize, ReadError>,
}

// Lays out the tokens that `rows` name in `text`, then reads the text that was laid out: the start and the
// end of each piece go into `pieces`.
#[tactic(auto, using(crate::proofs::Seen::seen_layout))]
pub fn format_and_read_back(
    rows: &[u8],
    text: &[u8],
    out: &mut [u8],
    pieces: &mut [u32],
    options: OptionNumbers,
) -> ReadBack
    ensures laid { Laid.reported result.laid
        ≡ (layout options.style options.indent_width options.signature_width options.list_width
        rows.now text.now out.old).report }
    ensures output { out.new
        ≡ (layout options.style options.indent_width options.signature_width options.list_width
        rows.now text.now out.old).out }
    ensures read { Read.reported result.read
        ≡ read_back_answer (layout options.style options.indent_width options.signature_width
        options.list_width rows.now text.now out.old) (length pieces.old) }
    ensures slice { pieces.new
        ≡ read_back_slots (layout options.style options.indent_width options.signature_width
        options.list_width rows.now text.now out.old) pieces.old }
    ensures first_half { FirstHalfOf (lexemes rows.now text.now)
        (seen result.laid out.new) (Read.reported result.read) pieces.old
        pieces.new }
{
    let laid = format_tokens_with(rows, text, out, options);
    let read = read_laid(laid, out, pieces);
    ReadBack { laid, read }
}

// Reads the text that a layout left in `out` into `pieces`. After a refusal it reads nothing.
#[tactic(auto, using(crate::proofs::Seen::laid_texts))]
fn read_laid(
    laid: Result<Text, LayoutError>,
    out: &[u8],
    pieces: &mut [u32],
) -> Result<usize, ReadError>
    requires { Fits (seen laid out.now) }
    ensures answer { Read.reported result
        ≡ read_back_answer (seen laid out.now) (length pieces.old) }
    ensures slice { pieces.new
        ≡ read_back_slots (seen laid out.now) pieces.old }
{
    let Ok(text) = laid else {
        return Ok(0);
    };
    read_pieces(&out[..text.length], pieces)
}
