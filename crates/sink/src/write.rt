// The sink: a lent output and the length of the text in it so far. Each writer has one room test for all that
// it writes. Where that does not fit, nothing is written, and the length is one past the output's end.
ghost use Rattle.std.specs.Prelude.{cond, [], ◌∷◌, ◌++◌, ◌≡◌, ◌+◌, ◌-◌, ◌≤◌, ◌<◌, ltb, length, MatchBool};
ghost use Rattle.std.proofs.Math.Seq.{slice};
ghost use Rattle.shared.specs.Bytes.{comma, else_word, left_brace, left_paren, line_feed};
ghost use Rattle.sink.specs.Sink.{Writes, spaces, count_comma, past_gap};
ghost use Rattle.sink.specs.Appends.{Appends, Room};
ghost use Rattle.sink.specs.Tail.{tail_bytes};

use crate::copy::copy_bytes;
use crate::put::{put_each, put_part, put_tail, put_token};

// What stands after a lexeme.
#[derive(Clone, Copy)]
pub enum Tail {
    // No byte.
    Nothing,
    // A line feed.
    Feed,
    // `{}`.
    Braces,
}

// A lent output, and the length of the text in it, which is past the output's end once something did not fit.
#[derive(Drop)]
pub struct Sink<'a> {
    pub out: &'a mut [u8],
    pub len: usize,
}

impl<'a> Sink<'a> {
    // Whether something did not fit.
    pub fn is_full(&self) -> bool
        ensures { result ≡ ltb (length self.now.out.now) self.now.len }
    {
        self.out.len() < self.len
    }

    // How many bytes are free.
    pub fn room(&self) -> usize
        requires { self.now.len ≤ length self.now.out.now }
        ensures { result ≡ length self.now.out.now - self.now.len }
    {
        self.out.len() - self.len
    }

    // Puts a space or none, and the bytes of `text` from `start` to `end`, of which there is one at least,
    // where they are known to fit.
    pub fn put_token(&mut self, space: usize, text: &[u8], start: usize, end: usize)
        requires start_lt_end { (start < end) × (end ≤ length text.now) }
        requires space_bound { space ≤ 1 }
        requires start_in_bounds { self.old.len + (space + (end - start)) ≤ length self.old.out.now }
        ensures { Appends self.old (spaces space ++ slice start end text.now) self.new }
    {
        self.len = put_token(self.out, self.len, space, text, start, end);
    }

    // Writes a gap, a lexeme and a tail.
    pub fn write_token(&mut self, gap: usize, lexeme: &[u8], tail: Tail)
        requires room { Room self.old gap }
        requires small { length lexeme.now < past_gap }
        ensures { Appends self.old (spaces gap ++ (lexeme.now ++ tail_bytes tail)) self.new }
    {
        let len = self.len;
        let at = len + gap;
        let ended = at + lexeme.len();
        let next = ended + tail_size(tail);
        if self.out.len() < next {
            self.len = self.out.len() + 1;
            return;
        }
        put_each(&mut self.out[len..at], b' ');
        put_part(&mut self.out[at..ended], lexeme);
        put_tail(&mut self.out[ended..next], tail);
        self.len = next;
    }

    // Writes a gap and a brace.
    pub fn write_brace(&mut self, gap: usize, brace: u8)
        requires { Room self.old gap }
        ensures { Appends self.old (spaces gap ++ (brace ∷ [])) self.new }
    {
        let len = self.len;
        let at = len + gap;
        if self.out.len() <= at {
            self.len = self.out.len() + 1;
            return;
        }
        put_each(&mut self.out[len..at], b' ');
        self.out[at] = brace;
        self.len = at + 1;
    }

    // Writes a comma, if one is wanted; a line feed, unless a line starts; spaces, and a closer.
    pub fn write_closer(&mut self, wanted: bool, at_line_start: bool, indent: usize, closer: u8)
        requires { Room self.old indent }
        ensures { Appends self.old
            (cond wanted comma [] ++ ((cond at_line_start [] line_feed ++ spaces indent) ++ (closer ∷ [])))
            self.new }
    {
        let len = self.len;
        let listed = len + usize::from(wanted);
        let fed = listed + usize::from(!at_line_start);
        let at = fed + indent;
        if self.out.len() <= at {
            self.len = self.out.len() + 1;
            return;
        }
        put_each(&mut self.out[len..listed], b',');
        put_each(&mut self.out[listed..fed], b'\n');
        put_each(&mut self.out[fed..at], b' ');
        self.out[at] = closer;
        self.len = at + 1;
    }

    // Writes a line feed, unless a line starts; spaces, `{` and a line feed.
    pub fn write_opener_line(&mut self, at_line_start: bool, indent: usize)
        requires { Room self.old indent }
        ensures { Appends self.old
            ((cond at_line_start [] line_feed ++ spaces indent) ++ (left_brace ++ line_feed))
            self.new }
    {
        let len = self.len;
        let fed = len + usize::from(!at_line_start);
        let at = fed + indent;
        let next = at + 2;
        if self.out.len() < next {
            self.len = self.out.len() + 1;
            return;
        }
        put_each(&mut self.out[len..fed], b'\n');
        put_each(&mut self.out[fed..at], b' ');
        self.out[at..next].copy_from_slice(b"{\n");
        self.len = next;
    }

    // Writes `(`, a line feed and spaces.
    pub fn write_signature_line(&mut self, indent: usize)
        requires { Room self.old indent }
        ensures { Appends self.old (left_paren ++ (line_feed ++ spaces indent)) self.new }
    {
        let at = self.len;
        let fed = at + 2;
        let next = fed + indent;
        if self.out.len() < next {
            self.len = self.out.len() + 1;
            return;
        }
        self.out[at..fed].copy_from_slice(b"(\n");
        put_each(&mut self.out[fed..next], b' ');
        self.len = next;
    }

    // Writes a comma and a line feed.
    pub fn write_comma_line(&mut self)
        requires { self.old.len ≤ length self.old.out.now }
        ensures { Appends self.old (comma ++ line_feed) self.new }
    {
        let at = self.len;
        let next = at + 2;
        if self.out.len() < next {
            self.len = self.out.len() + 1;
            return;
        }
        self.out[at..next].copy_from_slice(b",\n");
        self.len = next;
    }

    // Writes a line feed, spaces and `else`.
    pub fn write_else(&mut self, indent: usize)
        requires { Room self.old indent }
        ensures { Appends self.old ((line_feed ++ spaces indent) ++ else_word) self.new }
    {
        let len = self.len;
        let fed = len + 1;
        let at = fed + indent;
        let next = at + 4;
        if self.out.len() < next {
            self.len = self.out.len() + 1;
            return;
        }
        self.out[len] = b'\n';
        put_each(&mut self.out[fed..at], b' ');
        self.out[at..next].copy_from_slice(b"else");
        self.len = next;
    }

    // ---- parts of comments

    // Writes one byte.
    pub fn write_byte(&mut self, b: u8)
        ensures { Appends self.old (b ∷ []) self.new }
    {
        self.len = write_byte(self.out, self.len, b);
    }

    // Writes `n` spaces.
    pub fn write_spaces(&mut self, n: usize)
        ensures { Appends self.old (spaces n) self.new }
    {
        if !self.has_room(n) {
            self.len = self.out.len() + 1;
            return;
        }
        let len = self.len;
        put_each(&mut self.out[len..len + n], b' ');
        self.len += n;
    }

    // Writes the bytes of `part`.
    pub fn write_part(&mut self, part: &[u8])
        ensures { Appends self.old part.now self.new }
    {
        let len = self.len;
        if !self.has_room(part.len()) {
            self.len = self.out.len() + 1;
            return;
        }
        copy_bytes(&mut self.out[len..len + part.len()], part);
        self.len += part.len();
    }

    // Answers whether `n` bytes fit after the text, of which there may be more than fit already.
    fn has_room(&self, n: usize) -> bool
        ensures { MatchBool result (self.now.len + n ≤ length self.now.out.now)
            (length self.now.out.now < self.now.len + n) }
    {
        self.len <= self.out.len() && n <= self.out.len() - self.len
    }
}

// Answers how many bytes the tail has.
fn tail_size(tail: Tail) -> usize
    ensures { (result ≡ length (tail_bytes tail)) × (result ≤ 2) }
{
    match tail {
        Tail::Nothing => 0,
        Tail::Feed => 1,
        Tail::Braces => 2,
    }
}

// Answers how many commas that is.
pub fn count_comma(wanted: bool) -> usize
    ensures { (result ≡ count_comma wanted) × (result < 2) }
{
    usize::from(wanted)
}

// Writes one byte after the first `len` of an output, and answers the length after it: for the sheet, which is
// read into no `Sink` (crates/sheet/src/lib.rt).
pub fn write_byte(out: &mut [u8], len: usize, b: u8) -> usize
    ensures { Writes out.old len (b ∷ []) out.new result }
{
    if len < out.len() {
        out[len] = b;
        return len + 1;
    }
    out.len() + 1
}
