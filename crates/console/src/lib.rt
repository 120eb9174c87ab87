// What the programs share: they read standard input into fixed memory, and the replays take cases off it.
#![tactic(auto)]

ghost use Rattle.std.specs.Prelude.{if◌then◌else◌, ◌≡◌, ◌+◌, ◌≤◌, ◌<◌, leb, length, take, drop, is_some};
ghost use Rattle.std.specs.Prelude.{IfOk, IfSome, OnSome, SomeIff, MatchOption};
ghost use Rattle.std.specs.Char.{is_ascii_digit};
ghost use Rattle.std.specs.Fn.{CalledAtMut};
ghost use Rattle.std.specs.Int.{w32, from_le_bytes};
ghost use Rattle.std.specs.List.{prefix_len};
ghost use Rattle.std.specs.Str.Parse.{digits_value};
ghost use Rattle.console.specs.declared.Left.{Left};
ghost use Rattle.console.specs.Number.{digit, number, numeral, digits, HasNumber};
ghost use Rattle.console.specs.Replay.{Replays};

use std::io;
use std::io::Read;

// Fixed memory to read into.
pub fn buffer<const N: usize>() -> [u8; N]
    ensures { N ≡ length result }
{
    [0; N]
}

// Reads until `buf` is full or the input ends, and returns how many bytes were read. The count is what `read`
// gives, so that no `for` goes over it.
pub fn read_full(reader: &mut impl Read, buf: &mut [u8]) -> io::Result<usize>
    ensures { IfOk result (λ n. n ≤ length buf.new) }
{
    let mut size = 0;
    while size < buf.len() {
        let read = reader.read(&mut buf[size..])?;
        if read == 0 {
            break;
        }
        size += read;
    }
    Ok(size)
}

// What is left of an input.
#[derive(Clone, Copy)]
pub struct Left<'a> {
    pub bytes: &'a [u8],
}

impl<'a> Left<'a> {
    // Takes the next `size` bytes, if so many are left.
    pub fn take(&mut self, size: usize) -> Option<&'a [u8]>
        ensures taken { MatchOption result (length self.old.bytes.now < size)
            (λ taken. (size ≤ length self.old.bytes.now) × (taken.now ≡ take size self.old.bytes.now)) }
        ensures left { self.new.bytes.now
            ≡ (if is_some result then drop size self.old.bytes.now else self.old.bytes.now) }
    {
        let (taken, left) = self.bytes.split_at_checked(size)?;
        self.bytes = left;
        Some(taken)
    }

    // Takes the next decimal number, and the byte after it. The digits are taken also where there is none. A
    // number has at least one digit and a byte after it, and fits 64 bits.
    pub fn number(&mut self) -> Option<usize>
        ensures value { SomeIff result (HasNumber self.old.bytes.now)
            (digits_value 10 (digits self.old.bytes.now)) }
        ensures left { self.new.bytes.now
            ≡ drop (length (digits self.old.bytes.now) + 1) self.old.bytes.now }
        ensures shorter { OnSome result (length self.new.bytes.now < length self.old.bytes.now) }
    {
        let size = digits_len(self.bytes);
        let digits = str::from_utf8(self.take(size)?).ok()?;
        self.take(1)?;
        let number = digits.parse().ok()?;
        Some(number)
    }

    // Takes the numeral that comes first, and the byte after it, if there is one. An empty numeral is 0.
    // Unlike `number`, it takes bytes above '9' as digits too, and wraps past 32 bits.
    pub fn wrapping_number(&mut self) -> u32
        ensures value { result ≡ number (numeral self.old.bytes.now) }
        ensures left { self.new.bytes.now
            ≡ drop (length (numeral self.old.bytes.now) + 1) self.old.bytes.now }
    {
        let (numeral, left) = self.bytes.split_at(numeral_len(self.bytes));
        self.bytes = left;
        let _ = self.take(1);
        decimal(numeral)
    }

    // Takes the next `size` bytes as a decimal number, if so many are left.
    pub fn fixed_number(&mut self, size: usize) -> Option<u32>
        ensures value { MatchOption result (length self.old.bytes.now < size)
            (λ n. (size ≤ length self.old.bytes.now) × (n ≡ number (take size self.old.bytes.now))) }
        ensures left { self.new.bytes.now
            ≡ (if is_some result then drop size self.old.bytes.now else self.old.bytes.now) }
    {
        let numeral = self.take(size)?;
        Some(decimal(numeral))
    }

    // Takes the next 32-bit number, its lowest byte first.
    pub fn number_32(&mut self) -> Option<u32>
        ensures taken { is_some result ≡ leb 4 (length self.old.bytes.now) }
        ensures value { IfSome result (λ n. n ≡ from_le_bytes w32 (take 4 self.old.bytes.now)) }
        ensures left { self.new.bytes.now
            ≡ (if is_some result then drop 4 self.old.bytes.now else self.old.bytes.now) }
    {
        let (bytes, left) = self.bytes.split_first_chunk()?;
        self.bytes = left;
        Some(u32::from_le_bytes(*bytes))
    }
}

// Returns how many decimal digits come first.
fn digits_len(bytes: &[u8]) -> usize
    ensures { result ≡ prefix_len is_ascii_digit bytes.now }
{
    bytes.iter().take_while(|b| b.is_ascii_digit()).count()
}

// Returns how many bytes the numeral that comes first has.
fn numeral_len(bytes: &[u8]) -> usize
    ensures { result ≡ length (numeral bytes.now) }
{
    bytes.iter().take_while(|b| **b >= b'0').count()
}

// Returns the number that the bytes write.
fn decimal(bytes: &[u8]) -> u32
    ensures { result ≡ number bytes.now }
{
    bytes.iter().fold(
        0,
        |n, b| ((10 * u64::from(n) + u64::from(digit(*b))) % (1 << 32)) as u32,
    )
}

// Returns what the byte counts as a digit.
fn digit(b: u8) -> u8
    ensures { result ≡ digit b }
{
    b.saturating_sub(b'0') % 10
}

// Runs case after case, until one is not whole. No case is empty, so that there are fewer of them than bytes.
pub fn replay<F: FnMut(&mut Left<'_>) -> io::Result<bool>>(
    input: &[u8],
    mut case: F,
) -> io::Result<()>
    requires { F.IsAlwaysCallable case }
    ensures { (left : Left) × (left.bytes.now ≡ input.now)
        × Replays (CalledAtMut F.FnMut) (length input.now) case left result }
{
    let mut left = Left { bytes: input };
    for _ in 0..input.len() {
        if !case(&mut left)? {
            break;
        }
    }
    Ok(())
}

#[cfg(test)]
mod tests {
    use super::Left;

    // Each text with the number that it begins with, and what is left of it.
    #[test]
    fn takes_whole_numbers(rt: HostRuntime) {
        let cases = [
            ("12 x", Some(12), "x"),
            ("007,8", Some(7), "8"),
            ("x 12", None, " 12"),
            ("12", None, ""),
            ("", None, ""),
            ("18446744073709551615 x", Some(18446744073709551615), "x"),
            ("18446744073709551616 x", None, "x"),
        ];
        for (text, number, rest) in cases {
            let mut left = Left {
                bytes: text.as_bytes(),
            };
            assert_eq!(rt; left.number(), number, "the number at {text}");
            assert_eq!(rt; left.bytes, rest.as_bytes(), "the rest at {text}");
        }
    }
}
