// A number's bytes in a slice.
ghost use Rattle.std.specs.Prelude.{◌≡◌, ◌+◌, ◌≤◌, length};
ghost use Rattle.std.proofs.lemmas.List.Edits.{sets};

// Writes the bytes `x` into `bytes` from index `at` on.
pub fn put<const N: usize>(bytes: &mut [u8], at: usize, x: [u8; N])
    requires { at + N ≤ length bytes.old }
    ensures { bytes.new ≡ sets bytes.old at x.entry }
{
    bytes[at..at + N].copy_from_slice(&x);
}
