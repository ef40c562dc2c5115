// A row of text: the name of a call, and its numbers, each after a space.
use crate::calls::Call;
use arrayvec::ArrayVec;
use field::Exponent;

// How many numbers a row has at most: a field polynomial, a place or a length, and twenty entries of a list.
const MOST_NUMBERS: usize = 22;

// A sign anywhere among the numbers is the exponent's.
#[derive(Drop)]
pub struct Row {
    pub call: Call,
    numbers: ArrayVec<u32, MOST_NUMBERS>,
    is_negative: bool,
}

// The number below 2^32 that a word writes, its signs passed over: 0 where it has no digit.
fn number(word: &[u8]) -> Option<u32> {
    let mut n: u32 = 0;
    for b in word {
        n = match b {
            b'-' => n,
            b'0'..=b'9' => n.checked_mul(10)?.checked_add(u32::from(*b - b'0'))?,
            _ => return None,
        };
    }
    Some(n)
}

impl Row {
    // None where the line is malformed.
    pub fn parse(line: &[u8]) -> Option<Row> {
        let mut words = line.split(|b| *b == b' ');
        let call = Call::named(words.next()?)?;
        let mut numbers = ArrayVec::new();
        for word in words {
            numbers.try_push(number(word)?).ok()?;
        }
        Some(Row {
            call,
            numbers,
            is_negative: line.contains(&b'-'),
        })
    }

    // The number at place i; 0 where there are not so many.
    pub fn number(&self, i: usize) -> u32 {
        self.numbers.as_slice().get(i).copied().unwrap_or(0)
    }

    // The numbers from place i on: none where there are not so many.
    pub fn list(&self, i: usize) -> &[u32] {
        self.numbers.as_slice().get(i..).unwrap_or(&[])
    }

    // The number at place i with the row's sign; what is past an i32's ends is taken to the end.
    pub fn exponent(&self, i: usize) -> Exponent {
        let size = self.number(i);
        Exponent(if self.is_negative {
            0i32.saturating_sub_unsigned(size)
        } else {
            0i32.saturating_add_unsigned(size)
        })
    }
}
