// Runs of word bytes.
ghost use Rattle.std.specs.Prelude.{true, ◌≡◌, ◌*◌, ◌≤◌, ◌<◌, eqb, length};
ghost use Rattle.std.specs.Int.Bits.{bit_and};
ghost use Rattle.pieces.specs.Eight.{eight_ones, eight_lows};
ghost use Rattle.plain.specs.Scan.{is_word_byte, run_of};
ghost use Rattle.plain.specs.Eight.{fours_of, bytes_within, letters_in, words_in};

use crate::blocks::{Bytes, all_in};
use pieces::{bytes, eights};
use rows::number_at;

// Whether the lexeme has bytes, and all of them are word bytes. Up to sixteen are tested without a loop.
pub fn is_words(lexeme: &[u8]) -> bool
    ensures { result ≡ run_of is_word_byte lexeme.now }
{
    if let [b] = lexeme {
        return is_word(*b); // most lexemes have one byte
    }
    match lexeme.len() {
        0..=3 => is_short_words(lexeme),
        4..=8 => two_fours(lexeme),
        9..=16 => two_eights(lexeme),
        _ => is_long_words(lexeme),
    }
}

// The same for no byte, two or three.
fn is_short_words(lexeme: &[u8]) -> bool
    requires { (length lexeme.now < 4) × (length lexeme.now ≡ 1 → ⊥) }
    ensures { result ≡ run_of is_word_byte lexeme.now }
{
    match lexeme {
        [a, b] => is_word(*a) && is_word(*b),
        [a, b, c] => is_word(*a) && is_word(*b) && is_word(*c),
        _ => false,
    }
}

// The same for four to eight bytes, by the first four and the last four. Most lexemes have letters alone, so
// that these are tested first.
fn two_fours(lexeme: &[u8]) -> bool
    requires { (4 ≤ length lexeme.now) × (length lexeme.now ≤ 8) }
    ensures { result ≡ run_of is_word_byte lexeme.now }
{
    if is_letters(lexeme) {
        return true;
    }
    all_high(words_in(fours(lexeme)))
}

// The same for eight to sixteen bytes, by the first eight and the last eight.
fn two_eights(lexeme: &[u8]) -> bool
    requires { (8 ≤ length lexeme.now) × (length lexeme.now ≤ 16) }
    ensures { result ≡ run_of is_word_byte lexeme.now }
{
    let first = words_in(eights::eight_bytes(lexeme, 0));
    let last = words_in(eights::eight_bytes(lexeme, lexeme.len() - 8));
    all_high(first & last)
}

// The same for sixteen bytes and more. A string is told at once, by its first byte.
fn is_long_words(lexeme: &[u8]) -> bool
    requires { 16 ≤ length lexeme.now }
    ensures { result ≡ run_of is_word_byte lexeme.now }
{
    if lexeme[0] == b'"' {
        return false;
    }
    if lexeme.len() < 32 {
        return all_in::<16, _>(&WordBytes, lexeme);
    }
    all_in::<32, _>(&WordBytes, lexeme)
}

// The set of the word bytes.
#[derive(Clone, Copy)]
struct WordBytes;

impl Bytes for WordBytes {
    ghost set = { λ s. is_word_byte };

    fn has(&self, b: u8) -> bool {
        (128 <= b) | (b == b'_') | b.is_ascii_digit() | (b | 32).is_ascii_lowercase()
    }
}

// ---- eight bytes in one number

// In each byte, the bit that makes a letter small.
const SMALL: u64 = 0x2020_2020_2020_2020;

// What a number is multiplied by to stand after four bytes.
const AFTER_FOUR: u64 = 0x1_0000_0000;

// Whether all bytes are letters, for four to eight of them. A byte with its high bit set is no letter.
fn is_letters(s: &[u8]) -> bool
    requires { (4 ≤ length s.now) × (length s.now ≤ 8) }
    ensures { result ≡ true → run_of is_word_byte s.now ≡ true }
{
    let x = fours(s);
    all_high(letters_in(x) & (x ^ eights::HIGH))
}

// The first four and the last four bytes, which may overlap, in one number.
fn fours(s: &[u8]) -> u64
    requires { 4 ≤ length s.now }
    ensures { result ≡ fours_of s.now }
{
    let first = number_at(s, 0) as u64;
    let last = number_at(s, s.len() - 4) as u64;
    first + last * AFTER_FOUR
}

// Whether the high bit of each byte is set. The tests below answer there, byte by byte, and leave anything in
// the other bits.
fn all_high(x: u64) -> bool
    ensures { result ≡ eqb (bit_and x (128 * eight_ones)) (128 * eight_ones) }
{
    x & eights::HIGH == eights::HIGH
}

// Tells which bytes are word bytes: letters, digits, `_` and those with the high bit set. `_` with its bit of
// SMALL changed is 127: of the low parts that one alone reaches the high bit when 1 is added.
fn words_in(x: u64) -> u64
    ensures { result ≡ words_in eight_ones x }
{
    let low = x & eights::LOW;
    letters_in(x) | bytes_within(low, b'0', b'9') | ((low ^ SMALL) + eights::ONES) | x
}

// Tells which bytes are letters but for the high bit. Each is made small first.
fn letters_in(x: u64) -> u64
    ensures { result ≡ letters_in eight_ones x }
{
    bytes_within((x & eights::LOW) | SMALL, b'a', b'z')
}

// Tells which bytes are one of `first` to `last`: those that reach `first` and not the byte after `last`. All
// bytes of `low` are below 128, so that no sum carries into the next byte.
fn bytes_within(low: u64, first: u8, last: u8) -> u64
    requires { (low ≤ eight_lows) × (first ≤ 128) × (last ≤ 127) }
    ensures { result ≡ bytes_within eight_ones low first last }
{
    (low + (128 - first as u64) * eights::ONES) ^ (low + (127 - last as u64) * eights::ONES)
}

// ---- one byte

// Whether the byte is a word byte. Most are small letters, so that these are tested first.
fn is_word(b: u8) -> bool
    ensures { result ≡ is_word_byte b }
{
    if b.is_ascii_lowercase() {
        return true;
    }
    bytes::is_word(b)
}
