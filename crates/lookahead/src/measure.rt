// The step that the measures and the decisions share: paren depth, bracket depth, commas and width.
ghost use Rattle.std.specs.Prelude.{◌≡◌, ◌&&◌, ◌-◌, ◌^◌, ◌<◌, eqb};
ghost use Rattle.rows.specs.Kinds.{Comma};
ghost use Rattle.rows.specs.KindNumber.{kind_number};
ghost use Rattle.lookahead.specs.Measure.{depth_after};
ghost use Rattle.lookahead.specs.Scan.{is_last, is_top, stops_at, top_in, measure_of, counts, Room};
ghost use Rattle.lookahead.specs.Scan.{breaks, breaks_signature, breaks_list};

use rows::{Kind, Row};

// What is measured.
#[derive(Clone, Copy)]
pub enum Span {
    // The parameters of a signature.
    Signature,
    // A group that `(` opens.
    Paren,
    // A group that `[` opens.
    Bracket,
}

// The running numbers of a measure: how many parens and brackets are open, the commas at the top, and the
// width.
#[derive(Clone, Copy)]
pub struct Measure {
    pub parens: usize,
    pub brackets: usize,
    pub commas: usize,
    pub width: usize,
}

impl Measure {
    pub fn new() -> Self
        ensures { (result.parens ≡ 0) × (result.brackets ≡ 0) × (result.commas ≡ 0) × (result.width ≡ 0) }
    {
        Self {
            parens: 0,
            brackets: 0,
            commas: 0,
            width: 0,
        }
    }

    // Whether the measure stops before a token of this kind: the closer that matches, or Eof. A signature
    // does not look at brackets.
    pub fn stops(self, span: Span, kind: Kind) -> bool
        ensures { result ≡ stops_at span self.parens self.brackets (kind_number kind) }
    {
        if kind as u32 >= Kind::Comma as u32 {
            return false;
        }
        match (span, kind) {
            (_, Kind::Eof) => true,
            (Span::Signature, Kind::RightParen) => is_last(self.parens, 0),
            (Span::Paren, Kind::RightParen) => is_last(self.parens, self.brackets),
            (Span::Bracket, Kind::RightBracket) => is_last(self.brackets, self.parens),
            _ => false,
        }
    }

    // Counts a token of this kind and of `size` bytes.
    pub fn counts(self, span: Span, kind: Kind, size: usize) -> Measure
        requires { Room self size }
        ensures { measure_of result ≡ counts span (measure_of self) (kind_number kind) size }
    {
        let mut m = self;
        m.width += size + 1;
        match kind {
            Kind::LeftParen => m.parens += 1,
            Kind::RightParen => m.parens = m.parens.saturating_sub(1),
            Kind::LeftBracket => m.brackets += 1,
            Kind::RightBracket => m.brackets = m.brackets.saturating_sub(1),
            Kind::Comma if self.top_in(span) => m.commas += 1,
            _ => {}
        }
        m
    }

    // Whether the commas and the width are enough to break.
    pub fn breaks(self, span: Span, limit: usize) -> bool
        ensures { result ≡ breaks span limit self.commas self.width }
    {
        match span {
            Span::Signature => self.breaks_signature(limit),
            Span::Paren => self.breaks_list(limit),
            Span::Bracket => self.breaks_list(limit),
        }
    }

    // Whether a signature breaks: more than two commas, or wider than the limit.
    fn breaks_signature(self, limit: usize) -> bool
        ensures { result ≡ breaks_signature limit self.commas self.width }
    {
        2 < self.commas || limit < self.width
    }

    // Whether a list breaks: a comma, and wider than the limit.
    fn breaks_list(self, limit: usize) -> bool
        ensures { result ≡ breaks_list limit self.commas self.width }
    {
        0 < self.commas && limit < self.width // a list
    }

    // Whether the measure stands directly inside what is measured.
    fn top_in(self, span: Span) -> bool
        ensures { result ≡ top_in span self.parens self.brackets }
    {
        match span {
            Span::Signature => is_top(self.parens, self.brackets),
            Span::Paren => is_top(self.parens, self.brackets),
            Span::Bracket => is_top(self.brackets, self.parens),
        }
    }
}

// The kinds that open and close a group.
#[derive(Clone, Copy, Debug, PartialEq, Eq)]
pub struct Pair {
    pub opener: Kind,
    pub closer: Kind,
}

pub const PARENS: Pair = Pair {
    opener: Kind::LeftParen,
    closer: Kind::RightParen,
};

pub const BRACKETS: Pair = Pair {
    opener: Kind::LeftBracket,
    closer: Kind::RightBracket,
};

impl Pair {
    // Answers how many such groups are open after a token of this kind.
    pub fn depth_after(self, kind: Kind, depth: usize) -> usize
        requires { depth < 2 ^ 63 }
        ensures { result
            ≡ depth_after (kind_number self.opener) (kind_number self.closer) (kind_number kind) depth }
    {
        if kind == self.opener {
            return depth + 1;
        }
        if kind == self.closer {
            return depth.saturating_sub(1);
        }
        depth
    }
}

// Whether a token of this kind, at these depths, is a comma of the group itself.
pub fn is_top_comma(kind: Kind, own: usize, other: usize) -> bool
    ensures { result ≡ eqb (kind_number kind) Comma && is_top own other }
{
    kind == Kind::Comma && is_top(own, other)
}

// Whether no more than one of the opening kind is open, and none of the other.
pub fn is_last(own: usize, other: usize) -> bool
    ensures { result ≡ is_last own other }
{
    other == 0 && own <= 1 // of its own kind
}

// Whether one of the opening kind is open, and none of the other.
fn is_top(own: usize, other: usize) -> bool
    ensures { result ≡ is_top own other }
{
    own == 1 && other == 0
}

// Answers how many bytes a row names.
pub fn size_of(row: Row) -> usize
    ensures { (result ≡ row.end - row.start) × (result < 2 ^ 32) }
{
    row.end.saturating_sub(row.start) as usize
}
