// Where an open piece ends, by its kind. Each function takes the index from which it looks, and answers the
// index after what it passes over.
ghost use Rattle.std.specs.Prelude.{Bool, ℕ, ◌≡◌, cond, ◌+◌, ◌≤◌, ◌<◌, take, drop, length};
ghost use Rattle.shared.specs.Bytes.{digit};
ghost use Rattle.pieces.specs.Class.{class};
ghost use Rattle.pieces.specs.Reading.{word, number, operator};
ghost use Rattle.pieces.specs.Sets.{contains, Tests, run_length, all, is_gap};
ghost use Rattle.pieces.specs.Ends.{EndsAt, QuoteEnds, taken, join_at, ordinary};

use crate::bytes::ByteSet;
use crate::{bytes, eights};

// The index after the gaps that start at `from`.
#[tactic(auto, using(crate::proofs::ClassRuns::gaps_run))]
pub fn gap_end(text: &[u8], from: usize) -> usize
    ensures { result ≡ from + run_length (λ b. is_gap (class b)) (drop from text.now) }
{
    run_end(text, from, bytes::GAPS)
}

// The index after a run of word bytes which the byte `first`, directly before `from`, began.
#[tactic(auto, using(crate::proofs::ClassRuns::words_end))]
pub fn word_end(text: &[u8], from: usize, first: u8) -> usize
    ensures { EndsAt text.now (cond (digit first) number word) from result }
{
    if first.is_ascii_digit() {
        number_end(text, from)
    } else {
        run_end(text, from, bytes::WORDS)
    }
}

// The index after the run of operator bytes that starts at `from`.
#[tactic(auto, using(crate::proofs::ClassRuns::operators_end))]
pub fn operator_end(text: &[u8], from: usize) -> usize
    ensures { EndsAt text.now operator from result }
{
    run_end(text, from, bytes::OPERATORS)
}

// The index after the quote that closes what the byte `quote`, directly before `from`, opened; None where no
// quote closes it before the text's end.
#[tactic(auto, using(crate::proofs::Quote::quote_stops))]
pub fn quote_end(text: &[u8], from: usize, quote: u8) -> Option<usize>
    ensures { QuoteEnds text.now quote from result }
{
    let mut i = ordinary_end(text, from, quote);
    // A loop by index, since a backslash moves it by two.
    while i < text.len() {
        if text[i] == quote {
            return Some(i + 1);
        }
        i = ordinary_end(text, i + 2, quote); // a backslash takes the byte after it along
    }
    None
}

// The index after the ordinary bytes that start at `from`: those that are neither the quote nor a backslash.
pub fn ordinary_end(text: &[u8], from: usize, quote: u8) -> usize
    ensures { result ≡ from + run_length (ordinary quote) (drop from text.now) }
{
    let start = ordinary_eights(text, from, quote);
    end_of_run(text, start, |b| b != quote && b != b'\\')
}

// The index after as many ordinary bytes from `from` on as can be passed over eight at a time.
fn ordinary_eights(text: &[u8], from: usize, quote: u8) -> usize
    ensures { result + run_length (ordinary quote) (drop result text.now)
        ≡ from + run_length (ordinary quote) (drop from text.now) }
{
    let Some(last) = text.len().checked_sub(8) else {
        return from;
    };
    let mut i = from;
    // A loop by index: with `chunks_exact(8)` in its place strings take a seventh longer to read.
    while i <= last && eight_ordinary(text, i, quote) {
        i += 8;
    }
    i
}

// Whether the eight bytes from `at` on are ordinary.
#[tactic(auto, using(crate::proofs::Ordinary::eight_ordinary))]
fn eight_ordinary(text: &[u8], at: usize, quote: u8) -> bool
    requires { at + 8 ≤ length text.now }
    ensures { result ≡ all (ordinary quote) (take 8 (drop at text.now)) }
{
    let x = eights::eight_bytes(text, at);
    eights::bytes_other(x, quote) & eights::bytes_other(x, b'\\') == eights::HIGH
}

// The index after a run that a digit began: word bytes, and each `.` that a digit follows.
fn number_end(text: &[u8], from: usize) -> usize
    ensures { EndsAt text.now number from result }
{
    // A loop by index, since a `.` is taken by the byte after it.
    for i in from..text.len() {
        if !number_takes(text, i) {
            return i;
        }
    }
    from.max(text.len())
}

// Whether such a run takes the byte at `i`.
fn number_takes(text: &[u8], i: usize) -> bool
    requires { i < length text.now }
    ensures { result ≡ taken (join_at text.now number i) }
{
    let b = text[i];
    bytes::is_word(b) || (b == b'.' && text.get(i + 1).is_some_and(|next| next.is_ascii_digit()))
}

// The index after the run of bytes of a set that starts at `from`.
fn run_end(text: &[u8], from: usize, set: ByteSet) -> usize
    ensures { result ≡ from + run_length (contains set) (drop from text.now) }
{
    end_of_run(text, from, |b| set.contains(b))
}

// The index after the run of bytes that `takes` takes, which starts at `from`. With `take_while(..).count()` in
// place of the loop texts take a twelfth longer to read.
fn end_of_run<F: Fn(u8) -> bool>(text: &[u8], from: usize, takes: F) -> usize
    requires { F.IsAlwaysCallable takes }
    ensures { (p : ℕ → Bool) → Tests (F.post takes) p
        → result ≡ from + run_length p (drop from text.now) }
{
    for i in from..text.len() {
        if !takes(text[i]) {
            return i;
        }
    }
    from.max(text.len())
}
