// The house table: one polynomial per degree, from the smallest degree on.
ghost use Rattle.std.specs.Prelude.{◌≡◌, ◌≤◌};
ghost use Rattle.field.specs.House.{house_entry};
ghost use Rattle.field.specs.Limits.{smallest_degree, largest_degree};

use crate::limits::SMALLEST_DEGREE;

const HOUSE: [u32; 15] = [
    7, 11, 19, 37, 67, 131, 285, 529, 1033, 2053, 4179, 8219, 17475, 32771, 69643,
];

pub fn entry(degree: u32) -> u32
    requires { (smallest_degree ≤ degree) × (degree ≤ largest_degree) }
    ensures { result ≡ house_entry degree }
{
    HOUSE[(degree - SMALLEST_DEGREE) as usize]
}
