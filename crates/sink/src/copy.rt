// Copies a part of a text into a place of the lent output that has its length. That the two have one length is
// a clause: a type for the pair would be made at each call and taken apart there.
ghost use Rattle.std.specs.Prelude.{◌≡◌, ◌+◌, ◌≤◌, length};
ghost use Rattle.std.proofs.Math.Seq.{slice};
ghost use Rattle.sink.specs.Sink.{Writes};

// How many bytes are copied at a time.
const FOUR: usize = 4;

const EIGHT: usize = 8;

// Copies two bytes or more, without a loop where they are few.
pub fn copy(place: &mut [u8], part: &[u8])
    requires { (2 ≤ length part.now) × (length place.old ≡ length part.now) }
    ensures { place.new ≡ part.now }
{
    if part.len() < FOUR {
        copy_ends::<2>(place, part);
    } else if part.len() < EIGHT {
        copy_ends::<FOUR>(place, part);
    } else {
        copy_eights(place, part);
    }
}

// Copies byte by byte, for the bytes of comments.
pub fn copy_bytes(place: &mut [u8], part: &[u8])
    requires { length place.old ≡ length part.now }
    ensures { place.new ≡ part.now }
{
    for (i, &byte) in part.iter().enumerate() {
        place[i] = byte;
    }
}

// Copies the first N bytes, and the last N, which may go over them.
fn copy_ends<const N: usize>(place: &mut [u8], part: &[u8])
    requires size { (N ≤ length part.now) × (length part.now ≤ N + N) }
    requires same_size { length place.old ≡ length part.now }
    ensures { place.new ≡ part.now }
{
    copy_block::<N>(place, part, 0);
    copy_block::<N>(place, part, part.len() - N);
}

// Copies eight bytes at a time. The last eight may go over bytes that are copied already. The index is
// counted by hand: by `step_by`, functions and comments are laid out in 17 and 22 % more instructions, and
// take longer than docs/BENCHMARKS.md asks.
fn copy_eights(place: &mut [u8], part: &[u8])
    requires { (8 ≤ length part.now) × (length place.old ≡ length part.now) }
    ensures { place.new ≡ part.now }
{
    let last = part.len() - EIGHT;
    let mut i = 0;
    while i < part.len() {
        copy_block::<EIGHT>(place, part, i.min(last));
        i += EIGHT;
    }
}

// Copies the N bytes from `at` on. All are loaded before one is stored: the compiler makes one load and one
// store of it.
fn copy_block<const N: usize>(place: &mut [u8], part: &[u8], at: usize)
    requires { (at + N ≤ length part.now) × (length place.old ≡ length part.now) }
    ensures { Writes place.old at (slice at (at + N) part.now) place.new (at + N) }
{
    let mut block = [0u8; N];
    block.copy_from_slice(&part[at..at + N]);
    place[at..at + N].copy_from_slice(&block);
}
