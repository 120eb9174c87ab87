// A line of a sheet: its head, which is `L`, `T` or `R` and the kind, and its text.
ghost use Rattle.std.specs.Prelude.{◌≡◌, ◌+◌, ◌≤◌, ◌<◌, length};
ghost use Rattle.rows.specs.KindNumber.{what_number};
ghost use Rattle.sheet.specs.Line.{what_of, is_second, kind_and_text, line_of};
ghost use Rattle.sheet.specs.Steps.{line_at, HeadAt, what_or_3, TextAt, EscapeAt};

use rows::{Kind, What};
use sink::write::write_byte;

// What a line's head says, and the index of the sheet from which on the line's text stands.
#[derive(Clone, Copy)]
pub struct Head {
    pub what: What,
    pub kind: Kind,
    pub from: usize,
}

// Where a line's text ends.
#[derive(Clone, Copy)]
pub struct TextEnd {
    // The index of the sheet at which the next line starts.
    pub next: usize,
    // Where the texts so far end, which is past the slice where they do not fit.
    pub end: usize,
}

// The number of bytes of the shortest line.
const SHORTEST: usize = 5;

// Reads the head of the line at index `at`, if it keeps its form.
#[tactic(auto, using(crate::proofs::Form::head_forms))]
pub fn head_at(sheet: &[u8], at: usize) -> Option<Head>
    requires { at ≤ length sheet.now }
    ensures { HeadAt (line_of (line_at sheet.now at)) sheet.now at result }
{
    if sheet.len() - at < SHORTEST {
        return None;
    }
    let what = what_of(sheet[at])?;
    if sheet[at + 1] != b' ' {
        return None;
    }
    kind_at(sheet, at + 2, what)
}

// Reads the text of a line from index `from` of `sheet` into `text`, after `len` bytes, if it keeps its form.
// The index is counted by hand: an escape takes two bytes, and what is answered is an index too, which an
// iterator would have to count back from the bytes that are left.
pub fn read_text(sheet: &[u8], from: usize, text: &mut [u8], len: usize) -> Option<TextEnd>
    requires { from ≤ length sheet.now }
    ensures { TextAt sheet.now from text.old len result text.new }
{
    let mut i = from;
    let mut end = len;
    while i < sheet.len() {
        let b = sheet[i];
        i += 1;
        if b == b'\n' {
            return Some(TextEnd { next: i, end });
        }
        if b == b'\\' {
            let escaped = escape_at(sheet, i)?;
            end = write_byte(text, end, escaped);
            i += 1;
        } else {
            end = write_byte(text, end, b);
        }
    }
    None
}

// What a row is, by the line's first byte.
fn what_of(b: u8) -> Option<What>
    ensures { what_or_3 result ≡ what_of b }
{
    match b {
        b'L' => Some(What::Leading),
        b'T' => Some(What::Token),
        b'R' => Some(What::Trailing),
        _ => None,
    }
}

// Reads the kind at index `at`, and the space after it.
fn kind_at(sheet: &[u8], at: usize, what: What) -> Option<Head>
    requires { at + 3 ≤ length sheet.now }
    ensures { HeadAt (kind_and_text (what_number what) (line_at sheet.now at)) sheet.now at result }
{
    if !sheet[at].is_ascii_digit() {
        return None;
    }
    let first = sheet[at] - b'0';
    let second = sheet[at + 1];
    if is_second(first, second) {
        if sheet[at + 2] != b' ' {
            return None;
        }
        let kind = Kind::of(u32::from(10 * first + (second - b'0')));
        return Some(Head {
            what,
            kind,
            from: at + 3,
        });
    }
    if second != b' ' {
        return None;
    }
    let kind = Kind::of(u32::from(first));
    Some(Head {
        what,
        kind,
        from: at + 2,
    })
}

// The highest kind of a row.
const MOST_KIND: u8 = 34;

// Whether `b` is a digit that may follow the kind's first digit.
fn is_second(first: u8, b: u8) -> bool
    requires { first < 10 }
    ensures { result ≡ is_second first b }
{
    b.is_ascii_digit() && 0 < first && 10 * first + (b - b'0') <= MOST_KIND
}

// Returns the byte that a backslash and the byte at index `i` make, if a backslash may stand before it.
fn escape_at(sheet: &[u8], i: usize) -> Option<u8>
    ensures { EscapeAt sheet.now i result }
{
    match sheet.get(i)? {
        b'n' => Some(b'\n'),
        b'\\' => Some(b'\\'),
        _ => None,
    }
}
