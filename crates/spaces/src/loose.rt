// The rule in the form that the layout goes by: how many spaces stand between two tokens, by sets of kinds.
ghost use Rattle.std.specs.Prelude.{◌≡◌};
ghost use Rattle.rows.specs.KindNumber.{kind_number};
ghost use Rattle.spaces.specs.Between.{loose_kinds, loose_after, bit, spaces};

use rows::{Kind, KindSet};

macro_rules! set_of {
    ($($kind:ident)|+) => {
        KindSet($(1 << Kind::$kind as u64)|+)
    };
}

// After these no space stands.
const TIGHT_AFTER: KindSet = set_of!(
    LeftParen | LeftBracket | Dot | DotDot | ColonColon | Hash | Bang | BangHash
);

// Before these no space stands.
const TIGHT_BEFORE: KindSet = set_of!(
    RightParen | RightBracket | Dot | DotDot | ColonColon | Comma | Colon | Semicolon | Question
);

// A `(` after one of these is a call's.
const CALLED: KindSet = set_of!(Identifier | RightParen | RightBracket);

// A `[` after one of these, or of `CALLED`, is an index's or a type's.
const INDEXED: KindSet = set_of!(Array | Map | Set | Result);

const SPACE_AFTER: KindSet = KindSet(KindSet::ALL.0 - TIGHT_AFTER.0);

const SPACE_BEFORE: KindSet = KindSet(KindSet::ALL.0 - TIGHT_BEFORE.0);

const BEFORE_RIGHT_BRACE: KindSet = KindSet(SPACE_AFTER.0 - set_of!(LeftBrace).0);

const BEFORE_LEFT_PAREN: KindSet = KindSet(SPACE_AFTER.0 - CALLED.0);

const BEFORE_LEFT_BRACKET: KindSet = KindSet(BEFORE_LEFT_PAREN.0 - INDEXED.0);

const MINUS: KindSet = set_of!(Minus);

// Only these three kinds have a set of their own.
const RIGHT_BRACE: u32 = Kind::RightBrace as u32;

const LEFT_PAREN: u32 = Kind::LeftParen as u32;

const LEFT_BRACKET: u32 = Kind::LeftBracket as u32;

// Answers the kinds after which a token whose kind has the number `kind` may stand with a space. Where the
// last `-` is unary, Minus is none of them.
pub fn loose_after(kind: u32, unary: bool) -> KindSet
    ensures { result.0 ≡ loose_after kind unary }
{
    let loose = loose_kinds(kind);
    if unary {
        return KindSet(loose.0 - MINUS.0);
    }
    loose
}

fn loose_kinds(kind: u32) -> KindSet
    ensures { result.0 ≡ loose_kinds kind }
{
    match kind {
        RIGHT_BRACE => BEFORE_RIGHT_BRACE,
        LEFT_PAREN => BEFORE_LEFT_PAREN,
        LEFT_BRACKET => BEFORE_LEFT_BRACKET,
        _ => SPACE_AFTER,
    }
}

// Answers how many spaces stand between tokens of the kinds `prev` and `kind`, none or one. `loose` are the
// kinds after which there may be one.
pub fn spaces_between(loose: KindSet, prev: Kind, kind: Kind) -> usize
    ensures { result ≡ spaces loose.0 (kind_number prev) (kind_number kind) }
{
    (loose.contains(prev) && SPACE_BEFORE.contains(kind)) as usize
}

// Answers 1 where a space may stand after a token of the kind, else 0.
pub fn space_after(loose: KindSet, kind: Kind) -> usize
    ensures { result ≡ bit loose.0 (kind_number kind) }
{
    loose.contains(kind) as usize
}
