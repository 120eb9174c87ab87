// Sets of bytes, tested in blocks of one size.
ghost use Rattle.std.specs.Prelude.{Bool, ◌≡◌, ℕ, ◌≤◌, ◌<◌, length};
ghost use Rattle.pieces.specs.Sets.{all};

// A set of bytes.
pub trait Bytes {
    // The bytes of the set.
    ghost set: { Self → ℕ → Bool };

    // Whether the byte is in the set. It has no branch.
    fn has(&self, b: u8) -> bool
        ensures { result ≡ set self.now b };
}

// Whether all bytes are in the set. They are tested N at a time; where fewer are left, the last N of all.
pub fn all_in<const N: usize, S: Bytes>(set: &S, s: &[u8]) -> bool
    requires { (0 < N) × (N ≤ length s.now) }
    ensures { result ≡ all (S.set set.now) s.now }
{
    let (blocks, rest) = s.as_chunks::<N>();
    for block in blocks {
        if !block_in(set, block) {
            return false;
        }
    }
    if rest.is_empty() {
        return true;
    }
    match s.last_chunk::<N>() {
        Some(last) => block_in(set, last),
        None => false,
    }
}

// Whether all bytes of a block are in the set. No byte ends the loop, so that it compiles to vector code.
fn block_in<const N: usize, S: Bytes>(set: &S, block: &[u8; N]) -> bool
    ensures { result ≡ all (S.set set.now) block.now }
{
    let mut all = true;
    for b in block {
        all &= set.has(*b);
    }
    all
}
