// Why a call is turned down. The tests of a call stand in the order of the numbers: the first that applies wins.
ghost use Rattle.std.specs.Prelude.{◌≡◌};
ghost use Rattle.field.specs.Answers.{number_of};

#[derive(Clone, Copy, Debug, PartialEq, Eq)]
pub enum Refusal {
    OutOfRange = 1,
    HasFactor = 2,
    WrongCount = 3,
    TooLarge = 4,
    AllZero = 5,
    DivisionByZero = 6,
    NoPlace = 7,
}

impl Refusal {
    // Its number in the table: a name for it, which `map_err` takes too. (A `From` would promise no more.)
    pub fn number(self) -> u32
        ensures { result ≡ number_of self }
    {
        self as u32
    }
}
