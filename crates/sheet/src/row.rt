// A row in bytes: four 32-bit numbers, little-endian.
ghost use Rattle.std.specs.Prelude.{◌≡◌, cond, ◌*◌, ◌≤◌, length};
ghost use Rattle.rows.specs.KindNumber.{kind_number, what_number};
ghost use Rattle.rows.specs.Row.{row_size};
ghost use Rattle.sheet.specs.Row.{row_fits, with_row};

use rows::{Kind, ROW_BYTES, What};
use shared::numbers::put;

// The highest end of a text.
const MOST_END: usize = u32::MAX as usize;

// Stores a row in `rows` after the `n` rows that stand there, and returns true; where it does not fit, leaves
// `rows` as it is and returns false.
pub fn store(rows: &mut [u8], n: usize, what: What, kind: Kind, start: usize, end: usize) -> bool
    requires { (start ≤ end) × (row_size * n ≤ length rows.old) }
    ensures fits { result ≡ row_fits (length rows.old) n end }
    ensures put { rows.new
        ≡ cond result (with_row rows.old n (what_number what) (kind_number kind) start end) rows.old }
{
    if MOST_END < end {
        return false;
    }
    let at = ROW_BYTES * n;
    if rows.len() - at < ROW_BYTES {
        return false;
    }
    put(rows, at, (what as u32).to_le_bytes());
    put(rows, at + 4, (kind as u32).to_le_bytes());
    put(rows, at + 8, (start as u32).to_le_bytes());
    put(rows, at + 12, (end as u32).to_le_bytes());
    true
}
