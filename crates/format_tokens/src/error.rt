// Why a layout is refused (specification, 'Refusals').
ghost use Rattle.std.specs.Prelude.{◌≡◌};
ghost use Rattle.format_tokens.specs.Answer.{after_check, after_walk, refused_of};

use formatter::WalkError;
use rows::CheckError;
use shared::refusal::{Refusal, Refused};

#[derive(Clone, Copy, Debug, PartialEq, Eq)]
pub enum LayoutError {
    // Refusal 1: an option is out of bounds. Its position: 0 style, 1 indent width, 2 signature width, 3
    // list width.
    BadOption { position: usize },
    // Refusal 2: the rows are not of 16 bytes each, or more than 65,535.
    RaggedRows,
    // Refusal 3: this row is bad, or it is the last row and leads no token.
    BadRow { row: usize },
    // Refusal 4: at the token of this index the stack of broken groups would hold a 65th entry.
    Deep { index: usize },
    // Refusal 5: a byte of the token at this index does not fit the output.
    Full { index: usize },
}

impl From<CheckError> for LayoutError {
    ghost from_gives = { λ e r. r ≡ after_check e };

    fn from(error: CheckError) -> LayoutError {
        match error {
            CheckError::BadOption { position } => LayoutError::BadOption { position },
            CheckError::RaggedRows => LayoutError::RaggedRows,
            CheckError::BadRow { row } => LayoutError::BadRow { row },
        }
    }
}

impl From<WalkError> for LayoutError {
    ghost from_gives = { λ e r. r ≡ after_walk e };

    fn from(error: WalkError) -> LayoutError {
        match error {
            WalkError::Deep { index } => LayoutError::Deep { index },
            WalkError::Full { index } => LayoutError::Full { index },
        }
    }
}

impl From<LayoutError> for Refused {
    ghost from_gives = { λ e r. r ≡ refused_of e };

    fn from(error: LayoutError) -> Refused {
        let (refusal, place) = match error {
            LayoutError::BadOption { position } => (Refusal::BadOption, position),
            LayoutError::RaggedRows => (Refusal::RaggedRows, 0),
            LayoutError::BadRow { row } => (Refusal::BadRow, row),
            LayoutError::Deep { index } => (Refusal::Deep, index),
            LayoutError::Full { index } => (Refusal::Full, index),
        };
        Refused { refusal, place }
    }
}
