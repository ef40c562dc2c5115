// A system after the elimination, and what is read off its rows: whether there is a solution, the base, and the directions.
ghost use Rattle.std.specs.Prelude.{◌≡◌, ◌≤◌, ◌<◌};
ghost use Rattle.linear.specs.Limits.{places};
ghost use Rattle.linear.specs.Marks.{MarksFit};

use crate::inner::elimination::{PLACES, may_pivot};
use crate::inner::space::Space;
use binary::inner::digit::{bit, picked, power_of_two};

// How many unknowns there are, the rows, and the mark of each row: the column that it is the pivot of, `unknowns` while it is unused. (So
// an unused row reads as a bit that no column has, and no reading of the rows needs a branch, as it would for an Option. Rows stand apart
// from marks, since the elimination sweeps the rows alone.)
#[derive(Clone, Copy, Debug, PartialEq, Eq)]
pub struct Reduced {
    pub unknowns: u32,
    pub rows: [u32; PLACES],
    pub marks: [u32; PLACES],
    pub ghost few: { unknowns ≤ places },
    pub ghost marks_fit: { MarksFit marks },
}

impl Reduced {
    ghost use Rattle.linear.specs.Reading.{column, broken, pivot_columns, free_directions};
    ghost use Rattle.linear.specs.Solution.{some_solutions};
    ghost use Rattle.linear.specs.Values.{state, solutions};

    // Whether an unused row holds the right-hand bit: it says 0 = 1.
    pub fn contradicts(&self) -> bool
        ensures { result ≡ broken self.now.unknowns (state self.now) }
    {
        let right = self.unknowns;
        self.rows
            .iter()
            .zip(&self.marks)
            .any(|(row, mark)| may_pivot(right, *mark, *row, right))
    }

    // The columns that have a pivot row, as bits.
    fn pivot_columns(&self) -> u32
        ensures { result ≡ pivot_columns (state self.now) places }
    {
        let mut columns = 0;
        for mark in &self.marks {
            columns |= power_of_two(*mark);
        }
        columns
    }

    // The pivot columns of the rows that hold column f.
    fn column(&self, f: u32) -> u32
        requires { f < 32 }
        ensures { result ≡ column (state self.now) f places }
    {
        let mut sum = 0;
        for (row, mark) in self.rows.iter().zip(&self.marks) {
            sum ^= picked(bit(*row, f), power_of_two(*mark));
        }
        sum
    }

    // The base is what goes with the right-hand side, and each free column has a direction: its own bit, and what goes with it.
    pub fn solutions(&self) -> Space
        ensures { solutions result ≡ some_solutions (column (state self.now) self.now.unknowns places) (free_directions (state self.now) self.now.unknowns 0) }
    {
        let base = self.column(self.unknowns);
        let pivots = self.pivot_columns();
        let mut directions = [0; PLACES];
        // The place of the next direction, which is no index of the loop.
        let mut count: usize = 0;
        for t in 0..self.unknowns {
            if bit(pivots, t) == 0 {
                directions[count] = power_of_two(t) ^ self.column(t);
                count += 1;
            }
        }
        Space {
            base,
            count,
            directions,
        }
    }
}
