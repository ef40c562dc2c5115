// The rows of a system that is given by its columns: bit j of row i is bit i of column j, bit m is bit i of the right-hand side.
ghost use Rattle.std.specs.Prelude.{◌≡◌, ℕ, ◌≤◌, ◌<◌, get_or};
ghost use Rattle.linear.specs.Limits.{places};
ghost use Rattle.linear.specs.Matrix.{with_column, rows_of};

use crate::inner::elimination::PLACES;
use binary::inner::digit::{bit, picked, power_of_two};

// One column more, at bit j.
fn with_column(rows: [u32; PLACES], column: u32, j: u32) -> [u32; PLACES]
    requires { j < 32 }
    ensures { result ≡ with_column j column rows }
{
    let power = power_of_two(j);
    let mut out = rows;
    for (i, row) in out.iter_mut().enumerate() {
        *row ^= picked(bit(column, i as u32), power);
    }
    out
}

pub fn rows_of(m: u32, columns: [u32; PLACES], right: u32) -> [u32; PLACES]
    requires { m ≤ places }
    ensures { result ≡ rows_of m (λ (j : ℕ). get_or columns j 0) right }
{
    let mut rows = [0; PLACES];
    for (j, column) in columns[..m as usize].iter().enumerate() {
        // By way of a name: the result of a call laid into `rows` at once has no generated proof yet.
        let next = with_column(rows, *column, j as u32);
        rows = next;
    }
    with_column(rows, right, m)
}
