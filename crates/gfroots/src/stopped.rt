// Why a run ends before its input does.
use std::fmt;

#[derive(Debug, Clone, Copy, PartialEq, Eq)]
pub enum Stopped {
    ReadFailed,
    WriteFailed,
}

impl fmt::Display for Stopped {
    fn fmt<W: fmt::Write>(&self, f: &mut fmt::Formatter<W>) -> fmt::Result {
        f.write_str(match self {
            Stopped::ReadFailed => "a read failed; only the lines before it are answered",
            Stopped::WriteFailed => "a write failed; answers are missing",
        })
    }
}
