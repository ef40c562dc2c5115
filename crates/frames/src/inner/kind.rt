// The kinds of frames.
ghost use Rattle.std.specs.Prelude.{◌≡◌, MatchOption};
ghost use Rattle.frames.specs.Kind.{kind_byte, NoKind};

// Each has the value of its byte.
#[derive(Debug, Clone, Copy, PartialEq, Eq)]
pub enum Kind {
    DegreeUpTo4 = 1,
    Affine = 2,
}

impl Kind {
    // (A derive would promise nothing of the number.)
    pub fn byte(self) -> u32
        ensures { result ≡ kind_byte self }
    {
        self as u32
    }

    // The kind that a byte stands for, if any. (As TryFrom it would have to name an error, where there is one way to fail.)
    pub fn of_byte(byte: u32) -> Option<Kind>
        ensures { MatchOption result (NoKind byte) (λ kind. kind_byte kind ≡ byte) }
    {
        match byte {
            1 => Some(Kind::DegreeUpTo4),
            2 => Some(Kind::Affine),
            _ => None,
        }
    }
}
