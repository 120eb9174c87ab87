// A lexeme by itself: clauses 2 and 3 of the plain mark, and its bytes.
ghost use Rattle.std.specs.Prelude.{true, ◌&&◌, [], ◌∷◌, ◌≡◌, ◌≤◌, ◌<◌, leb, ltb, length, get_or};
ghost use Rattle.shared.specs.Bytes.{same_bytes};
ghost use Rattle.rows.specs.Kinds.{Newline, Comma, Else};
ghost use Rattle.rows.specs.KindNumber.{kind_number};
ghost use Rattle.pieces.specs.Class.{class};
ghost use Rattle.pieces.specs.Sets.{is_quote};
ghost use Rattle.pieces.specs.Ends.{ordinary};
ghost use Rattle.definition.specs.Plain.{operator_byte, has_its_lexeme, reads_whole};
ghost use Rattle.definition.specs.Plain.{begins_operator, ends_operator, begins_digit};
ghost use Rattle.plain.specs.Scan.{bracket_of, run_of, IsValue};

use crate::blocks::{Bytes, all_in};
use pieces::bytes::{is_operator, is_quote};
use pieces::{next_piece, runs};
use rows::Kind;

// Whether the kind is one from LeftBrace to Comma: its lexeme is one byte.
pub fn is_bracket(kind: Kind) -> bool
    ensures { result ≡ (ltb Newline (kind_number kind) && leb (kind_number kind) Comma) }
{
    matches!(
        kind,
        Kind::LeftBrace
            | Kind::RightBrace
            | Kind::LeftParen
            | Kind::RightParen
            | Kind::LeftBracket
            | Kind::RightBracket
            | Kind::Comma
    )
}

// The byte that is the lexeme of such a kind. It is a table; as an Option it compiles to a jump by the kind.
#[tactic(auto, unfolding(crate::specs::Scan::bracket_of))]
pub fn bracket_of(kind: Kind) -> u8
    requires { (Newline < kind_number kind) × (kind_number kind ≤ Comma) }
    ensures { result ≡ bracket_of (kind_number kind) }
{
    match kind {
        Kind::LeftBrace => b'{',
        Kind::RightBrace => b'}',
        Kind::LeftParen => b'(',
        Kind::RightParen => b')',
        Kind::LeftBracket => b'[',
        Kind::RightBracket => b']',
        _ => b',',
    }
}

// Whether the lexeme is the one of the kind, from Colon to Else, and reads as one piece, the whole of it.
pub fn is_itself(kind: Kind, lexeme: &[u8]) -> bool
    requires { (Comma < kind_number kind) × (kind_number kind ≤ Else) }
    ensures { result ≡ has_its_lexeme (kind_number kind) lexeme.now && reads_whole lexeme.now }
{
    match kind {
        Kind::Colon => is_just(lexeme, b":"),
        Kind::Semicolon => is_just(lexeme, b";"),
        Kind::Question => is_just(lexeme, b"?"),
        Kind::Dot => is_just(lexeme, b"."),
        Kind::DotDot => is_just(lexeme, b".."),
        Kind::ColonColon => is_just(lexeme, b"::"),
        Kind::Hash => is_just(lexeme, b"#"),
        Kind::Bang => is_just(lexeme, b"!"),
        Kind::BangHash => is_operators(lexeme),
        Kind::Minus => is_just(lexeme, b"-"),
        _ => is_just(lexeme, b"else"),
    }
}

// Whether the lexeme is the byte alone. (`is_just` would store a byte that is no constant, and load it again.)
#[tactic(auto, using(crate::proofs::Bytes::same_single))]
pub fn is_single(lexeme: &[u8], b: u8) -> bool
    ensures { result ≡ same_bytes lexeme.now (b ∷ []) }
{
    match lexeme {
        [a] => *a == b,
        _ => false,
    }
}

// Whether the lexeme is these bytes, and no others.
fn is_just<const N: usize>(lexeme: &[u8], bytes: &[u8; N]) -> bool
    ensures { result ≡ same_bytes lexeme.now bytes.now }
{
    lexeme == bytes.as_slice()
}

// Whether the lexeme begins with an operator byte.
pub fn begins_operator(lexeme: &[u8]) -> bool
    ensures { result ≡ begins_operator lexeme.now }
{
    match lexeme {
        [first, ..] => is_operator(*first),
        [] => false,
    }
}

// Whether the lexeme ends with an operator byte.
pub fn ends_operator(lexeme: &[u8]) -> bool
    ensures { result ≡ ends_operator lexeme.now }
{
    match lexeme {
        [.., last] => is_operator(*last),
        [] => false,
    }
}

// Whether the lexeme begins with a digit.
pub fn begins_digit(lexeme: &[u8]) -> bool
    ensures { result ≡ begins_digit lexeme.now }
{
    match lexeme {
        [first, ..] => first.is_ascii_digit(),
        [] => false,
    }
}

// Whether the lexeme has bytes, and all of them are operator bytes.
pub fn is_operators(lexeme: &[u8]) -> bool
    ensures { result ≡ run_of operator_byte lexeme.now }
{
    !lexeme.is_empty() && lexeme.iter().all(|b| is_operator(*b))
}

// Whether the lexeme reads as one piece that is the whole of it.
pub fn reads_whole(lexeme: &[u8]) -> bool
    ensures { result ≡ reads_whole lexeme.now }
{
    match next_piece(lexeme, 0) {
        Ok(Some(piece)) => piece.start == 0 && piece.end == lexeme.len(),
        Ok(None) => false,
        Err(_) => false,
    }
}

// Whether the lexeme is a number, or a quote without a backslash. Another lexeme may read as one piece too.
pub fn is_value(lexeme: &[u8]) -> bool
    ensures { result ≡ true → IsValue lexeme.now }
{
    let Some(first) = lexeme.first() else {
        return false;
    };
    if first.is_ascii_digit() {
        return runs::word_end(lexeme, 1, *first) == lexeme.len();
    }
    is_quoted(lexeme, *first)
}

// Whether the lexeme, whose first byte is `first`, is a quote that its last byte closes, without a backslash.
fn is_quoted(lexeme: &[u8], first: u8) -> bool
    requires { (0 < length lexeme.now) × (first ≡ get_or lexeme.now 0 0) }
    ensures { result ≡ true → IsValue lexeme.now }
{
    if !is_quote(first) {
        return false;
    }
    if 66 <= lexeme.len() {
        return is_long_quoted(lexeme, first);
    }
    let end = runs::ordinary_end(lexeme, 1, first);
    end == lexeme.len() - 1 && lexeme[end] == first
}

// The same for sixty-six bytes and more, of which the first is the quote `quote`.
fn is_long_quoted(lexeme: &[u8], quote: u8) -> bool
    requires { (66 ≤ length lexeme.now)
        × (quote ≡ get_or lexeme.now 0 0)
        × (is_quote (class quote) ≡ true) }
    ensures { result ≡ true → IsValue lexeme.now }
{
    let last = lexeme.len() - 1;
    lexeme[last] == quote && all_in::<64, _>(&Ordinary { quote }, &lexeme[1..last])
}

// The bytes that are neither this quote nor a backslash.
#[derive(Clone, Copy)]
struct Ordinary {
    quote: u8,
}

impl Bytes for Ordinary {
    ghost set = { λ s. ordinary s.quote };

    fn has(&self, b: u8) -> bool {
        (b != self.quote) & (b != b'\\')
    }
}
