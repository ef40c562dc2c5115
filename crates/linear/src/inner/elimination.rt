// The elimination. Rows stand by power in the result and stay where they are; columns go from the lowest unknown up; the pivot is the
// first unused row that holds the bit, and it is added to every other row that holds it.
ghost use Rattle.std.specs.Prelude.{◌≡◌, ◌*◌, ◌≤◌, ◌<◌};
ghost use Rattle.binary.specs.Xor.{◌⊕◌};
ghost use Rattle.binary.specs.Bit.{bit};
ghost use Rattle.linear.specs.Limits.{places};
ghost use Rattle.linear.specs.Elimination.{candidate, clear, eliminate};
ghost use Rattle.linear.specs.Values.{state};

use crate::inner::reduced::Reduced;
use binary::inner::digit::{bit, picked};

// Rows and unknowns at most.
pub const PLACES: usize = 16;

// The pivot row added, where the row holds column k.
fn added(row: u32, pivot: u32, k: u32) -> u32
    requires { k < 32 }
    ensures { result ≡ row ⊕ bit k row * pivot }
{
    row ^ picked(bit(row, k), pivot)
}

// Row p added to every other row that holds column k. No branch: row p is added to itself with the rest, and put back.
fn cleared(rows: [u32; PLACES], k: u32, p: usize) -> [u32; PLACES]
    requires { (k < 32) × (p < places) }
    ensures { result ≡ clear k p rows }
{
    let pivot = rows[p];
    let mut out = rows;
    for row in out.iter_mut() {
        *row = added(*row, pivot, k);
    }
    out[p] = pivot;
    out
}

// Whether a row with this mark may be the pivot of column k: it is unused, and holds the column.
pub fn may_pivot(m: u32, mark: u32, row: u32, k: u32) -> bool
    requires { k < 32 }
    ensures { result ≡ candidate m k mark row }
{
    mark == m && bit(row, k) == 1
}

// The search for the pivot row stays a loop inside the loop over the columns, which yields the row by `break`: the scope names this form.
pub fn eliminated(m: u32, rows: [u32; PLACES]) -> Reduced
    requires { m ≤ places }
    ensures unknowns { result.unknowns ≡ m }
    ensures rows { state result ≡ eliminate m rows }
{
    let mut a = rows;
    let mut marks = [m; PLACES];
    for k in 0..m {
        let mut i: usize = 0;
        let pivot = loop {
            if PLACES <= i {
                break None;
            }
            if may_pivot(m, marks[i], a[i], k) {
                break Some(i);
            }
            i += 1;
        };
        if let Some(p) = pivot {
            a = cleared(a, k, p);
            marks[p] = k;
        }
    }
    Reduced {
        unknowns: m,
        rows: a,
        marks,
    }
}
