// What has been counted so far. (`rootsearch` counts other things: one type of both would be a list of numbers beside a list of names.)
use std::fmt;
use trial::inner::count::Count;

// The faultless calls, the elements tried for them, and their roots; the places compared; and the calls with a difference.
#[derive(Clone, Copy, Default)]
pub struct Counts {
    pub equations: Count,
    pub tried: Count,
    pub roots: Count,
    pub places: Count,
    pub differences: Count,
}

impl Counts {
    // What was counted after an earlier state.
    pub fn since(self, earlier: Counts) -> Counts {
        Counts {
            equations: self.equations - earlier.equations,
            tried: self.tried - earlier.tried,
            roots: self.roots - earlier.roots,
            places: self.places - earlier.places,
            differences: self.differences - earlier.differences,
        }
    }
}

impl fmt::Display for Counts {
    fn fmt<W: fmt::Write>(&self, f: &mut fmt::Formatter<W>) -> fmt::Result {
        write!(f, "{} equations, ", self.equations)?;
        write!(f, "{} elements tried, ", self.tried)?;
        write!(f, "{} roots, ", self.roots)?;
        write!(f, "{} places, ", self.places)?;
        write!(f, "{} differences", self.differences)
    }
}
