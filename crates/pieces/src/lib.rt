// Reading back (specification, 'Reading back'): a text read into pieces, each with its start and its end.
#![tactic(auto)]

ghost use Rattle.std.specs.Prelude.{◌≡◌, cond, ◌*◌, ◌≤◌, length, OnOk, IfErr, is_ok};
ghost use Rattle.pieces.specs.Reading.{read_from};
ghost use Rattle.pieces.specs.Next.{next};
ghost use Rattle.pieces.specs.Answer.{refusal_of, reported, read_answer, read_slots, fits};
ghost use Rattle.pieces.specs.Steps.{Begins, put};
ghost use Rattle.pieces.specs.declared.ReadError.TheVariants.{Unreadable, PiecesFull};

use crate::bytes::Class;
use shared::refusal::{Refusal, Refused};

pub mod bytes;
pub mod eights;
pub mod runs;

// Why a text is not read into pieces.
#[derive(Clone, Copy, Debug, PartialEq, Eq)]
pub enum ReadError {
    // Refusal 9: at the index stands a byte of no class, or a quote that is never closed.
    Unreadable { index: usize },
    // Refusal 10: the piece that starts there has no room in the slice, or ends past the 32-bit numbers.
    PiecesFull { start: usize },
}

impl From<Unreadable> for ReadError {
    ghost from_gives = { λ u e. e ≡ Unreadable u.index };

    fn from(at: Unreadable) -> ReadError {
        ReadError::Unreadable { index: at.index }
    }
}

impl From<ReadError> for Refused {
    ghost from_gives = { λ e r. r ≡ refusal_of e };

    fn from(error: ReadError) -> Refused {
        match error {
            ReadError::Unreadable { index } => Refused {
                refusal: Refusal::Unreadable,
                place: index,
            },
            ReadError::PiecesFull { start } => Refused {
                refusal: Refusal::PiecesFull,
                place: start,
            },
        }
    }
}

// Reads `text` into pieces, puts the start and the end of each into `pieces`, in order, and answers how many
// there are. What lies past them is unchanged. After a refusal every number of `pieces` is 0.
pub fn read_pieces(text: &[u8], pieces: &mut [u32]) -> Result<usize, ReadError>
    ensures answer { reported result ≡ read_answer text.now (length pieces.old) }
    ensures slice { pieces.new ≡ read_slots text.now pieces.old }
{
    let read = read_into(text, pieces);
    if read.is_err() {
        pieces.fill(0);
    }
    read
}

// The same, but after a refusal `pieces` holds the pieces before it.
#[tactic(auto, using(crate::proofs::Filling::start, crate::proofs::Filling::more))]
fn read_into(text: &[u8], pieces: &mut [u32]) -> Result<usize, ReadError>
    ensures answer { reported result ≡ read_answer text.now (length pieces.old) }
    ensures len { length pieces.new ≡ length pieces.old }
    ensures slice { OnOk result (pieces.new ≡ read_slots text.now pieces.old) }
{
    let mut at = 0;
    let mut n = 0;
    while let Some(piece) = next_piece(text, at)? {
        store(pieces, n, piece)?;
        n += 1;
        at = piece.end;
    }
    Ok(n)
}

// A piece of a text: the index of its first byte, and the index after its last.
#[derive(Clone, Copy, Debug, PartialEq, Eq)]
pub struct Piece {
    pub start: usize,
    pub end: usize,
}

// At the index stands a byte of no class, or a quote that is never closed.
#[derive(Clone, Copy, Debug, PartialEq, Eq)]
pub struct Unreadable {
    pub index: usize,
}

// Finds the next piece of `text` from `at` on, where one may begin; None where no more than gaps are left.
#[tactic(auto, using(crate::proofs::Begin::after_gaps))]
pub fn next_piece(text: &[u8], at: usize) -> Result<Option<Piece>, Unreadable>
    ensures { result ≡ next (read_from text.now at) }
{
    let start = runs::gap_end(text, at);
    if start < text.len() {
        piece_at(text, start)
    } else {
        Ok(None)
    }
}

// Finds the piece that begins at `start`, where no gap stands.
#[tactic(auto, using(crate::proofs::Begin::by_class))]
fn piece_at(text: &[u8], start: usize) -> Result<Option<Piece>, Unreadable>
    requires { Begins text.now start }
    ensures { result ≡ next (read_from text.now start) }
{
    let b = text[start];
    let after = start + 1;
    let end = match bytes::class_of(b) {
        Class::Gap => unreachable!(),
        Class::Single => after,
        Class::Quote => runs::quote_end(text, after, b).ok_or(Unreadable { index: start })?,
        Class::Word => runs::word_end(text, after, b),
        Class::Operator => runs::operator_end(text, after),
        Class::Unclassed => return Err(Unreadable { index: start }),
    };
    Ok(Some(Piece { start, end }))
}

// Puts the piece after the `n` that stand in `pieces` already, where it fits. A slice of what is free, cut
// again at each piece, would be no plainer.
fn store(pieces: &mut [u32], n: usize, piece: Piece) -> Result<(), ReadError>
    requires { (piece.start ≤ piece.end) × (2 * n ≤ length pieces.old) }
    ensures fits { is_ok result ≡ fits (length pieces.old) n piece.end }
    ensures full { IfErr result (λ e. e ≡ PiecesFull piece.start) }
    ensures put { pieces.new
        ≡ cond (is_ok result) (put pieces.old n piece.start piece.end) pieces.old }
{
    let at = 2 * n;
    if piece.end > u32::MAX as usize || pieces.len() - at < 2 {
        return Err(ReadError::PiecesFull { start: piece.start });
    }
    pieces[at] = piece.start as u32;
    pieces[at + 1] = piece.end as u32;
    Ok(())
}
