// What a frame is turned down for. The numbers are those of the answer lines.
#[derive(Debug, Clone, Copy, PartialEq, Eq)]
pub enum Refusal {
    OutOfRange = 1,
    HasFactor = 2,
    WrongCount = 3,
    TooLarge = 4,
    AllZero = 5,
    Malformed = 8,
}

impl Refusal {
    // A name for its number, which `map` takes too.
    pub fn number(self) -> u8 {
        self as u8
    }
}
