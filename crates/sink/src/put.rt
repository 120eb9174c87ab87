// Puts bytes into a place of the lent output that has their length.
ghost use Rattle.std.specs.Prelude.{◌≡◌, ◌++◌, ◌+◌, ◌-◌, ◌≤◌, ◌<◌, length, replicate};
ghost use Rattle.std.proofs.Math.Seq.{slice};
ghost use Rattle.sink.specs.Sink.{Writes, spaces};
ghost use Rattle.sink.specs.Tail.{tail_bytes};

use crate::copy::copy;
use crate::write::Tail;

// Puts the byte `b` in each place: mostly in none, in one, or in an indent's.
pub fn put_each(place: &mut [u8], b: u8)
    ensures { place.new ≡ replicate (length place.old) b }
{
    match place.len() {
        0 => {}
        1 => place[0] = b,
        _ => {
            for byte in place.iter_mut() {
                *byte = b;
            }
        }
    }
}

// Puts the bytes of `part`. One byte needs no loop.
pub fn put_part(place: &mut [u8], part: &[u8])
    requires { length place.old ≡ length part.now }
    ensures { place.new ≡ part.now }
{
    match part.len() {
        0 => {}
        1 => place[0] = part[0],
        _ => copy(place, part),
    }
}

// Puts what stands after a lexeme.
pub fn put_tail(place: &mut [u8], tail: Tail)
    requires { length place.old ≡ length (tail_bytes tail) }
    ensures { place.new ≡ tail_bytes tail }
{
    match tail {
        Tail::Nothing => {}
        Tail::Feed => place[0] = b'\n',
        Tail::Braces => place.copy_from_slice(b"{}"),
    }
}

// Puts a space or none after the first `len` bytes of an output, and the bytes of `text` from `start` to `end`,
// of which there is one at least. Answers the length after them. It takes no sink and no part of the text: a
// method of the sink would load its fields again after each byte that it stores, and with a part, identifiers
// take 8 in 100 more and the small list misses its bar (docs/BENCHMARKS.md).
pub fn put_token(
    out: &mut [u8],
    len: usize,
    space: usize,
    text: &[u8],
    start: usize,
    end: usize,
) -> usize
    requires start_lt_end { (start < end) × (end ≤ length text.now) }
    requires space_bound { space ≤ 1 }
    requires start_in_bounds { len + (space + (end - start)) ≤ length out.old }
    ensures { Writes out.old len (spaces space ++ slice start end text.now) out.new result }
{
    // Where no space is wanted, the lexeme goes over it.
    out[len] = b' ';
    let at = len + space;
    let size = end - start;
    let next = at + size;
    // A token of one byte needs no loop.
    out[at] = text[start];
    if 1 < size {
        copy(&mut out[at..next], &text[start..end]);
    }
    next
}
