// Writers of the bytes that rows name: the lexeme of a token, and comments with their marks (`comments`).
#![tactic(auto)]

ghost use Rattle.std.specs.Prelude.{◌++◌, ◌+◌, ◌≤◌, length};
ghost use Rattle.rows.specs.Row.{row_size, row_at};
ghost use Rattle.rows.specs.Bounds.{Inside};
ghost use Rattle.rows.specs.Token.{bytes_of};
ghost use Rattle.sink.specs.Sink.{spaces};
ghost use Rattle.sink.specs.Appends.{Appends, Room};
ghost use Rattle.sink.specs.Tail.{tail_bytes};

use rows::row_at;
use sink::write::{Sink, Tail};

pub mod comments;

// The rows, and the text in which they name bytes.
#[derive(Clone, Copy)]
pub struct Source<'a> {
    pub rows: &'a [u8],
    pub text: &'a [u8],
}

// Writes a gap, the lexeme of the row at `own`, and a tail. It is compiled by itself: the formatter's methods
// that call it are then small enough to be compiled into theirs.
#[inline(never)]
pub fn write_lexeme(sink: &mut Sink, gap: usize, source: Source, own: usize, tail: Tail)
    requires room { Room sink.old gap }
    requires inside { (own + row_size ≤ length source.rows.now)
        × Inside source.text.now (row_at source.rows.now own) }
    ensures { Appends sink.old
        (spaces gap
        ++ (bytes_of source.entry.text.now (row_at source.entry.rows.now own) ++ tail_bytes tail))
        sink.new }
{
    let row = row_at(source.rows, own);
    let lexeme = &source.text[row.start as usize..row.end as usize];
    sink.write_token(gap, lexeme, tail);
}
