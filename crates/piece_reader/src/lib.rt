// The reader of pieces (specification, 'Reading back') in its reference form, and the count of a text's
// pieces.
#![tactic(auto)]

ghost use Rattle.std.specs.Prelude.{◌≡◌, Ok, MatchResult, IsErrAnd};
ghost use Rattle.pieces.specs.Answer.{reported};
ghost use Rattle.pieces.specs.declared.ReadError.TheVariants as error;
ghost use Rattle.piece_reader.specs.Reader.{found, advanced, count_answer};

use pieces::{Piece, ReadError, Unreadable, next_piece};

// Counts the pieces of `text`, or says where it is unreadable.
#[tactic(auto, using(crate::proofs::Counting::counting))]
pub fn count_pieces(text: &[u8]) -> Result<usize, ReadError>
    ensures { reported result ≡ count_answer text.now }
{
    let mut reader = PieceReader { text, at: 0 };
    let mut n = 0;
    while let Some(_) = or_refusal(reader.take_next())? {
        n += 1;
    }
    Ok(n)
}

// A text, and the index of the byte from which it is read on.
#[derive(Clone, Copy, Debug, PartialEq, Eq)]
pub struct PieceReader<'a> {
    pub text: &'a [u8],
    pub at: usize,
}

impl<'a> PieceReader<'a> {
    // What stands next: a piece, the text's end, or what cannot be read. The reader stays.
    pub fn peek(self) -> Result<Option<Piece>, Unreadable>
        ensures { result ≡ found self.entry }
    {
        next_piece(self.text, self.at)
    }

    // The reader after the next piece; where no piece is next, the same reader.
    pub fn advance(self) -> PieceReader<'a>
        ensures { result ≡ advanced self.entry }
    {
        let mut reader = self;
        let _ = reader.take_next();
        reader
    }

    // Takes the piece that is next, and goes on after it; where no piece is next, the reader stays.
    fn take_next(&mut self) -> Result<Option<Piece>, Unreadable>
        ensures next { result ≡ found self.old }
        ensures reader { self.new ≡ advanced self.old }
    {
        let next = self.peek();
        if let Ok(Some(piece)) = next {
            self.at = piece.end;
        }
        next
    }
}

// What stands next, where a text that cannot be read there is refusal 9.
fn or_refusal(next: Result<Option<Piece>, Unreadable>) -> Result<Option<Piece>, ReadError>
    ensures { MatchResult result (λ p. next ≡ Ok p) (λ e. IsErrAnd next (λ u. e ≡ error.Unreadable u.index)) }
{
    match next {
        Ok(piece) => Ok(piece),
        Err(Unreadable { index }) => Err(ReadError::Unreadable { index }),
    }
}
