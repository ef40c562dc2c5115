// What has been counted so far. (`affinesearch` counts other things: one type of both would be a list of numbers beside a list of names.)
use std::fmt;
use trial::inner::count::Count;

// The faultless calls of `solve`, the elements tried for them, their roots, and those of the roots that are multiple; the faultless calls of
// `build`; and the calls with a difference.
#[derive(Clone, Copy, Default)]
pub struct Counts {
    pub equations: Count,
    pub tried: Count,
    pub roots: Count,
    pub multiple: Count,
    pub builds: Count,
    pub differences: Count,
}

impl Counts {
    // What was counted after an earlier state.
    pub fn since(self, earlier: Counts) -> Counts {
        Counts {
            equations: self.equations - earlier.equations,
            tried: self.tried - earlier.tried,
            roots: self.roots - earlier.roots,
            multiple: self.multiple - earlier.multiple,
            builds: self.builds - earlier.builds,
            differences: self.differences - earlier.differences,
        }
    }
}

impl fmt::Display for Counts {
    fn fmt<W: fmt::Write>(&self, f: &mut fmt::Formatter<W>) -> fmt::Result {
        write!(f, "{} equations, ", self.equations)?;
        write!(f, "{} elements tried, ", self.tried)?;
        write!(f, "{} different roots, ", self.roots)?;
        write!(f, "{} multiple roots, ", self.multiple)?;
        write!(f, "{} builds with round trips, ", self.builds)?;
        write!(f, "{} differences", self.differences)
    }
}
