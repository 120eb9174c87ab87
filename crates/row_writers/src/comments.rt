// Writers of comments with their marks, as leading and trailing trivia have them. They take the row, which tells
// the kind too, and not its bytes alone.
ghost use Rattle.std.specs.Prelude.{cond, [], ◌++◌, ◌<◌};
ghost use Rattle.shared.specs.Bytes.{line_feed, space, star_slash};
ghost use Rattle.rows.specs.Bounds.{Inside, row_of};
ghost use Rattle.rows.specs.KindNumber.{trivia_number};
ghost use Rattle.rows.specs.Kinds.{BlankLine};
ghost use Rattle.rows.specs.Token.{bytes_of};
ghost use Rattle.sink.specs.Appends.{Appends};
ghost use Rattle.row_writers.specs.Comment.{comment_head, lead_tail, trail_head, trail_tail};

use rows::{Row, Trivia};
use sink::write::Sink;

// Writes a leading comment, of which `row` names the bytes in `text`: its marks, a space, its bytes and a
// line feed.
pub fn write_lead(sink: &mut Sink, text: &[u8], row: Row)
    requires inside { Inside text.now (row_of row) }
    requires kind_bound { row.kind < BlankLine }
    ensures { Appends sink.old
        (comment_head row.kind ++ (space ++ bytes_of text.now (row_of row) ++ lead_tail row.kind))
        sink.new }
{
    let kind = row.trivia();
    write_head(sink, kind);
    sink.write_byte(b' ');
    sink.write_part(&text[row.start as usize..row.end as usize]);
    if kind == Trivia::BlockComment {
        sink.write_byte(b' ');
        write_tail(sink);
    }
    sink.write_byte(b'\n');
}

// Writes a trailing comment: no space within a block comment's marks, and no line feed.
pub fn write_trail(sink: &mut Sink, text: &[u8], row: Row)
    requires inside { Inside text.now (row_of row) }
    requires kind_bound { row.kind < BlankLine }
    ensures { Appends sink.old
        (trail_head row.kind ++ (bytes_of text.now (row_of row) ++ trail_tail row.kind))
        sink.new }
{
    let kind = row.trivia();
    write_head(sink, kind);
    if kind == Trivia::BlockComment {
        sink.write_part(&text[row.start as usize..row.end as usize]);
        write_tail(sink);
    } else {
        sink.write_byte(b' ');
        sink.write_part(&text[row.start as usize..row.end as usize]);
    }
}

// Writes a blank line's line feed, except in a record.
pub fn write_blank_line(sink: &mut Sink, in_record: bool)
    ensures { Appends sink.old (cond in_record [] line_feed) sink.new }
{
    if !in_record {
        sink.write_byte(b'\n');
    }
}

// Writes the mark that begins a comment: `//`, `///` or `/*`.
fn write_head(sink: &mut Sink, kind: Trivia)
    ensures { Appends sink.old (comment_head (trivia_number kind)) sink.new }
{
    sink.write_byte(b'/');
    match kind {
        Trivia::BlockComment => sink.write_byte(b'*'),
        Trivia::DocComment => {
            sink.write_byte(b'/');
            sink.write_byte(b'/');
        }
        Trivia::LineComment | Trivia::BlankLine => sink.write_byte(b'/'),
    }
}

// Writes the mark that ends a block comment.
fn write_tail(sink: &mut Sink)
    ensures { Appends sink.old star_slash sink.new }
{
    sink.write_byte(b'*');
    sink.write_byte(b'/');
}
