// The space between two tokens (specification, 'Spaces'): `needs_space` and `is_value_token` of format.rs,
// and the form of the same rule that the layout goes by (`loose`).
#![tactic(auto)]

ghost use Rattle.std.specs.Prelude.{◌≡◌, Some};
ghost use Rattle.shared.specs.declared.refusal.Refusal.TheVariants.{BadRow};
ghost use Rattle.rows.specs.KindNumber.{kind_number};
ghost use Rattle.spaces.specs.Space.{needs_space, no_space_after, no_space_before, is_value_kind};
ghost use Rattle.spaces.specs.Answer.{reported, refusal_text, space_report};

use rows::Kind;
use shared::refusal::{Refusal, Refused};
use std::error::Error;
use std::fmt;

pub mod loose;

// A kind above 34: the argument at `position`, 0 or 1, is the first. It is refusal 3.
#[derive(Clone, Copy, Debug, PartialEq, Eq)]
pub struct UnknownKind {
    pub position: usize,
}

impl From<UnknownKind> for Refused {
    ghost from_gives = { λ e r. (r.refusal ≡ BadRow) × (r.place ≡ e.position) };

    fn from(error: UnknownKind) -> Refused {
        Refused {
            refusal: Refusal::BadRow,
            place: error.position,
        }
    }
}

// The refusal's number and its place.
impl fmt::Display for UnknownKind {
    ghost output = { λ e. Some (refusal_text e) };

    fn fmt<W: fmt::Write>(&self, f: &mut fmt::Formatter<W>) -> fmt::Result {
        Refused::from(*self).fmt(f)
    }
}

impl Error for UnknownKind {}

// Takes the kinds of two adjacent tokens, and answers whether a space is needed between them.
#[tactic(auto, unfolding(crate::specs::Answer::space_report))]
pub fn needs_space(first: u32, second: u32) -> Result<bool, UnknownKind>
    ensures { reported result ≡ space_report first second }
{
    let Ok(first) = Kind::try_from(first) else {
        return Err(UnknownKind { position: 0 });
    };
    let Ok(second) = Kind::try_from(second) else {
        return Err(UnknownKind { position: 1 });
    };
    Ok(space_between(first, second))
}

// Whether a space belongs between two adjacent tokens, of the kinds `prev` and `curr`.
fn space_between(prev: Kind, curr: Kind) -> bool
    ensures { result ≡ needs_space (kind_number prev) (kind_number curr) }
{
    if no_space_after(prev) || no_space_before(curr) {
        return false;
    }
    match curr {
        Kind::RightBrace => prev != Kind::LeftBrace,
        // A call.
        Kind::LeftParen => !matches!(
            prev,
            Kind::Identifier | Kind::RightParen | Kind::RightBracket
        ),
        // An index, or the brackets of a generic type.
        Kind::LeftBracket => !matches!(
            prev,
            Kind::Identifier
                | Kind::RightParen
                | Kind::RightBracket
                | Kind::Array
                | Kind::Map
                | Kind::Set
                | Kind::Result
        ),
        _ => true,
    }
}

// Whether never a space stands right after a token of this kind.
fn no_space_after(kind: Kind) -> bool
    ensures { result ≡ no_space_after (kind_number kind) }
{
    matches!(
        kind,
        Kind::LeftParen
            | Kind::LeftBracket
            | Kind::Dot
            | Kind::DotDot
            | Kind::ColonColon
            | Kind::Hash
            | Kind::Bang
            | Kind::BangHash
    )
}

// Whether never a space stands right before a token of this kind.
fn no_space_before(kind: Kind) -> bool
    ensures { result ≡ no_space_before (kind_number kind) }
{
    matches!(
        kind,
        Kind::RightParen
            | Kind::RightBracket
            | Kind::Dot
            | Kind::DotDot
            | Kind::ColonColon
            | Kind::Comma
            | Kind::Colon
            | Kind::Semicolon
            | Kind::Question
    )
}

// Whether a token whose kind has this number can end an expression, so that a `-` after it is binary.
pub fn is_value_kind(kind: u32) -> bool
    ensures { result ≡ is_value_kind kind }
{
    matches!(
        Kind::of(kind),
        Kind::Identifier
            | Kind::NumberLiteral
            | Kind::ByteLiteral
            | Kind::StringLiteral
            | Kind::CharacterLiteral
            | Kind::FloatLiteral
            | Kind::BoolLiteral
            | Kind::RightParen
            | Kind::RightBracket
            | Kind::Null
    )
}
