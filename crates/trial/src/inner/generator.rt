// The generator, and what is drawn by it: lists of elements, damage, and polynomials of every kind.
ghost use Rattle.std.specs.Prelude.{◌<◌, ◌≤◌, length};

// Two field polynomials for each degree from 2 to 16: the house one and another. Degree 2 has one only, which stands twice. The powers of x
// do not reach every element for the second one from degree 4 on, but for degrees 5, 7 and 13, where they always do.
pub const ACCEPTED: [[u32; 2]; 15] = [
    [7, 7],
    [11, 13],
    [19, 31],
    [37, 61],
    [67, 73],
    [131, 247],
    [285, 283],
    [529, 515],
    [1033, 1039],
    [2053, 2243],
    [4179, 4105],
    [8219, 8231],
    [17475, 16417],
    [32771, 32879],
    [69643, 65579],
];

// How many of the generator's numbers are below this one: half of them.
pub const HALF: u32 = 2147483648;

// It stands at a number, from which anything may be read, and goes on to the next one.
#[derive(Debug, Clone, Copy)]
pub struct Generator {
    number: u32,
}

impl Generator {
    pub fn new() -> Generator {
        Generator { number: 20240229 }
    }

    pub fn advance(&mut self) {
        self.number = self.number.wrapping_mul(1664525).wrapping_add(1013904223);
    }

    // The high bits, which vary most.
    pub fn high(&self) -> u32
        ensures { result < 65536 }
    {
        self.number / 65536
    }

    // A number below n.
    pub fn below(&self, n: u32) -> u32
        requires { 1 ≤ n }
        ensures { result < n }
    {
        self.high() % n
    }

    // A polynomial, by the highest three bits: below 4; from 131072 up; any between, most of which have a factor; one of
    // the accepted ones.
    pub fn polynomial(&self, accepted: &[[u32; 2]]) -> u32
        requires { 0 < length accepted.now }
    {
        let some = self.high() % 8192;
        match self.high() / 8192 {
            0 => some % 4,
            1 => 131072 + some % 8,
            2 => 131072 + some * 500000,
            3 | 4 => 4 + self.number / 4096 % 131068,
            _ => {
                let some = some as usize;
                accepted[some % accepted.len()][some / accepted.len() % 2]
            }
        }
    }

    // Numbers below `bound`, each after going on; 0 where the generator stands below `zeros`.
    pub fn elements<const N: usize>(&mut self, bound: u32, zeros: u32) -> [u32; N]
        requires { 1 ≤ bound }
    {
        let mut list = [0; N];
        for entry in &mut list {
            self.advance();
            if zeros <= self.number {
                *entry = self.below(bound);
            }
        }
        list
    }

    // A number that is no element of a field of `size` elements: the size, the largest number, or some more than the size. Which of them, or
    // none, a drawn number says, of which each program takes other bits: an enum in between would have to be made from that number first.
    pub fn outside(&self, kind: u32, size: u32) -> Option<u32>
        requires { size ≤ 65536 }
    {
        match kind {
            1 => Some(size),
            2 => Some(u32::MAX),
            3 => Some(size + self.high()),
            _ => None,
        }
    }
}
