// The table of refusals (specification, 'Refusals'), and a refusal with its place.
ghost use Rattle.std.specs.Prelude.{◌≡◌, Some};
ghost use Rattle.shared.specs.Report.{refusal_number, refused_text};

use std::fmt;

// What a call refuses, under the table's names.
#[derive(Clone, Copy, Debug, PartialEq, Eq)]
pub enum Refusal {
    BadOption = 1,
    RaggedRows = 2,
    BadRow = 3,
    Deep = 4,
    Full = 5,
    NoNames = 6,
    BadLine = 7,
    SheetFull = 8,
    Unreadable = 9,
    PiecesFull = 10,
    BadReport = 11,
}

impl Refusal {
    // The refusal's number in the table.
    pub fn number(self) -> u32
        ensures { result ≡ refusal_number self }
    {
        self as u32
    }
}

// A refusal and its place. Each call's own error becomes one, by `From`.
#[derive(Clone, Copy, Debug, PartialEq, Eq)]
pub struct Refused {
    pub refusal: Refusal,
    pub place: usize,
}

// Its number and its place, as the programs write them.
impl fmt::Display for Refused {
    ghost output = { λ r. Some (refused_text r) };

    fn fmt<W: fmt::Write>(&self, f: &mut fmt::Formatter<W>) -> fmt::Result {
        write!(f, "{} {}", self.refusal.number(), self.place)
    }
}
