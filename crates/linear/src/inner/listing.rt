// All solutions in a lent list, by doubling: the first 2^j entries, each combined with direction j, are the next 2^j.
ghost use Rattle.std.specs.Prelude.{◌≡◌, ◌++◌, map, ℕ, ◌+◌, ◌^◌, ◌≤◌, ◌<◌, length, get_or, drop};
ghost use Rattle.std.proofs.Math.Seq.{paste};
ghost use Rattle.algebra.specs.Lists.{count_up};
ghost use Rattle.binary.specs.Xor.{◌⊕◌};
ghost use Rattle.linear.specs.Limits.{width};
ghost use Rattle.linear.specs.Directions.{choose};

use crate::inner::space::Space;

// What the list holds: `width` bits.
pub type Entry = u16;

// The first `size` entries once more after themselves, each with d added.
fn doubled(list: &mut [Entry], size: usize, d: Entry)
    requires { size + size ≤ length list.old }
    ensures { list.new ≡ paste list.old size (map (λ x. x ⊕ d) list.old) size }
{
    // Two places of one list: a copy of the entries, changed where it stands, would go over them twice.
    for i in 0..size {
        list[size + i] = list[i] ^ d;
    }
}

impl Space {
    // The base combined with each choice of the directions, in the order of the numbers that choose; entries after them stay.
    pub fn list_all(&self, list: &mut [Entry])
        requires { (2 ^ self.now.count ≤ length list.old) × (self.now.base < 2 ^ width) × ((i : ℕ) → i < self.now.count → get_or self.now.directions i 0 < 2 ^ width) }
        ensures { list.new ≡ map (λ k. self.now.base ⊕ choose self.now.directions k) (count_up 0 (2 ^ self.now.count)) ++ drop (2 ^ self.now.count) list.old }
    {
        list[0] = self.base as Entry;
        let mut size: usize = 1;
        for direction in &self.directions[..self.count] {
            doubled(list, size, *direction as Entry);
            size *= 2;
        }
    }
}
