// Values put into the lists that a caller lends, and the number that a call for C returns.
ghost use Rattle.std.specs.Prelude.{◌≡◌, ℕ, [], ◌∷◌, ◌++◌, ◌≤◌, length, drop};
ghost use Rattle.field.specs.Answers.{of_answer};
ghost use Rattle.firmware.specs.Lent.{fits, status, returned, after, value_of, room_number};

use field::{Element, LogNumber, Refusal};

// A value that C takes as one word. (No From<Element> for u32: its impls would stand in the crate `field`, for the calls of C alone.)
pub trait Word {
    ghost of_word: { Self → ℕ };

    fn word(self) -> u32
        ensures { result ≡ of_word self };
}

impl Word for u32 {
    ghost of_word = { λ n. n };

    fn word(self) -> u32 {
        self
    }
}

impl Word for Element {
    ghost of_word = { λ a. a.0 };

    fn word(self) -> u32 {
        self.0
    }
}

impl Word for LogNumber {
    ghost of_word = { λ n. n.0 };

    fn word(self) -> u32 {
        self.0
    }
}

// What C is told: 0, or the number that the call is turned down by.
pub fn status(done: Result<(), Refusal>) -> u32
    ensures { result ≡ status done }
{
    match done {
        Ok(()) => 0,
        Err(refusal) => refusal.number(),
    }
}

// A value in the first place of a list, where it has one.
pub fn put(value: u32, list: &mut [u32]) -> Result<(), Refusal>
    ensures value { status result ≡ room_number (fits 1 list.old) }
    ensures list_after { list.new ≡ after (status result) (value ∷ []) list.old }
{
    if list.len() == 0 {
        return Err(Refusal::NoPlace);
    }
    list[0] = value;
    Ok(())
}

// The value of an answer, or its refusal.
pub fn put_answer<W: Word>(answer: Result<W, Refusal>, list: &mut [u32]) -> Result<(), Refusal>
    ensures value { status result ≡ returned (of_answer W.of_word answer) (fits 1 list.old) }
    ensures list_after { list.new ≡ after (status result) (value_of (of_answer W.of_word answer)) list.old }
{
    put(answer?.word(), list)
}

// Values at the front of a list; what stands after them stays.
pub fn put_all(values: &[u32], list: &mut [u32])
    requires { length values.now ≤ length list.old }
    ensures { list.new ≡ values.now ++ drop (length values.now) list.old }
{
    list[..values.len()].copy_from_slice(values);
}
