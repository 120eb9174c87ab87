// Eight bytes in one number, tested at once.
ghost use Rattle.std.specs.Prelude.{◌≡◌, ◌+◌, ◌≤◌, length};
ghost use Rattle.pieces.specs.Eight.{eight_at, eight_ones, bytes_other};

// In each byte the high bit; in each the bits below it; in each the number 1.
pub const HIGH: u64 = 0x8080_8080_8080_8080;

pub const LOW: u64 = 0x7f7f_7f7f_7f7f_7f7f;

pub const ONES: u64 = 0x0101_0101_0101_0101;

// The eight bytes from `at` on as one number, the first of them lowest.
pub fn eight_bytes(s: &[u8], at: usize) -> u64
    requires { at + 8 ≤ length s.now }
    ensures { result ≡ eight_at s.now at }
{
    u64::from_le_bytes([
        s[at],
        s[at + 1],
        s[at + 2],
        s[at + 3],
        s[at + 4],
        s[at + 5],
        s[at + 6],
        s[at + 7],
    ])
}

// Answers in the high bit of each byte of `x` whether the byte is another than `b`; the other bits are 0.
// The sum reaches the high bit where a bit below it is set, and carries into no other byte.
pub fn bytes_other(x: u64, b: u8) -> u64
    ensures { result ≡ bytes_other eight_ones x b }
{
    let v = x ^ (u64::from(b) * ONES);
    (((v & LOW) + LOW) | v) & HIGH
}
