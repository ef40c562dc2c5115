// A system and its solutions.
ghost use Rattle.std.specs.Prelude.{◌≡◌, ◌≤◌, option_map};
ghost use Rattle.linear.specs.Limits.{places};
ghost use Rattle.linear.specs.Solution.{solution_by, solves_rows, in_kernel};
ghost use Rattle.linear.specs.Values.{solutions};

use crate::inner::elimination::{PLACES, eliminated};
use crate::inner::space::Space;

// None where there is no solution.
pub fn solved(m: u32, rows: [u32; PLACES]) -> Option<Space>
    requires { m ≤ places }
    ensures { option_map solutions result ≡ solution_by m (solves_rows m rows) (in_kernel rows) }
{
    let reduced = eliminated(m, rows);
    if reduced.contradicts() {
        None
    } else {
        Some(reduced.solutions())
    }
}
