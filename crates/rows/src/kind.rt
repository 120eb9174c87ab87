// The kinds of tokens and of trivia, and what a row is, as types (specification, 'Kinds').

ghost use Rattle.std.specs.Prelude.{◌≡◌, ◌≤◌, ◌<◌, ◌++◌, min, codes, MatchResult, Some};
ghost use Rattle.std.specs.Fmt.{decimal};
ghost use Rattle.rows.specs.Kinds.{Other};
ghost use Rattle.rows.specs.KindNumber.{kind_number};
ghost use Rattle.rows.specs.KindSet.{member};

use std::error::Error;
use std::fmt;

// What a row is, in the order of the numbers 0 to 2.
#[derive(Clone, Copy, Debug, PartialEq, Eq)]
pub enum What {
    Leading,
    Token,
    Trailing,
}

// The kinds of trivia, in the order of the numbers 0 to 3.
#[derive(Clone, Copy, Debug, PartialEq, Eq)]
pub enum Trivia {
    LineComment,
    DocComment,
    BlockComment,
    BlankLine,
}

// The kinds of tokens, under the names of `TokenType`, in the order of the numbers 0 to 34.
#[derive(Clone, Copy, Debug, PartialEq, Eq)]
pub enum Kind {
    Eof,
    Newline,
    LeftBrace,
    RightBrace,
    LeftParen,
    RightParen,
    LeftBracket,
    RightBracket,
    Comma,
    Colon,
    Semicolon,
    Question,
    Dot,
    DotDot,
    ColonColon,
    Hash,
    Bang,
    BangHash,
    Minus,
    Else,
    Fn,
    Record,
    Identifier,
    NumberLiteral,
    ByteLiteral,
    StringLiteral,
    CharacterLiteral,
    FloatLiteral,
    BoolLiteral,
    Null,
    Array,
    Map,
    Set,
    Result,
    // All others.
    Other,
}

// A number above 34, which is no kind's.
#[derive(Clone, Copy, Debug, PartialEq, Eq)]
pub struct NoSuchKind(pub u32);

impl Kind {
    // Returns the kind of this number. Every number above 34 is `Other`.
    pub fn of(number: u32) -> Kind
        ensures { kind_number result ≡ min number Other }
    {
        match number {
            0 => Kind::Eof,
            1 => Kind::Newline,
            2 => Kind::LeftBrace,
            3 => Kind::RightBrace,
            4 => Kind::LeftParen,
            5 => Kind::RightParen,
            6 => Kind::LeftBracket,
            7 => Kind::RightBracket,
            8 => Kind::Comma,
            9 => Kind::Colon,
            10 => Kind::Semicolon,
            11 => Kind::Question,
            12 => Kind::Dot,
            13 => Kind::DotDot,
            14 => Kind::ColonColon,
            15 => Kind::Hash,
            16 => Kind::Bang,
            17 => Kind::BangHash,
            18 => Kind::Minus,
            19 => Kind::Else,
            20 => Kind::Fn,
            21 => Kind::Record,
            22 => Kind::Identifier,
            23 => Kind::NumberLiteral,
            24 => Kind::ByteLiteral,
            25 => Kind::StringLiteral,
            26 => Kind::CharacterLiteral,
            27 => Kind::FloatLiteral,
            28 => Kind::BoolLiteral,
            29 => Kind::Null,
            30 => Kind::Array,
            31 => Kind::Map,
            32 => Kind::Set,
            33 => Kind::Result,
            _ => Kind::Other,
        }
    }
}

impl TryFrom<u32> for Kind {
    type Error = NoSuchKind;

    ghost try_from_gives = { λ number r. MatchResult r
        (λ kind. (kind_number kind ≡ number) × (number ≤ Other))
        (λ e. (e.0 ≡ number) × (Other < number)) };

    fn try_from(number: u32) -> Result<Kind, NoSuchKind> {
        if number > Kind::Other as u32 {
            return Err(NoSuchKind(number));
        }
        Ok(Kind::of(number))
    }
}

impl fmt::Display for NoSuchKind {
    ghost output = { λ e. Some (codes "no kind of token has number " ++ decimal e.0) };

    fn fmt<W: fmt::Write>(&self, f: &mut fmt::Formatter<W>) -> fmt::Result {
        write!(f, "no kind of token has number {}", self.0)
    }
}

impl Error for NoSuchKind {}

// A set of kinds, as bits of a number: a kind is in it where the bit of its number is 1.
#[derive(Clone, Copy, Debug, PartialEq, Eq)]
pub struct KindSet(pub u64);

impl KindSet {
    // All kinds.
    pub const ALL: KindSet = KindSet(0x7_ffff_ffff);

    // Tells whether the kind is in the set.
    pub fn contains(self, kind: Kind) -> bool
        ensures { result ≡ member self.0 (kind_number kind) }
    {
        (self.0 >> kind as u32) % 2 == 1
    }
}
