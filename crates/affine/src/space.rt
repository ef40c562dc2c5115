// What an equation that has roots is answered. It is not linear's `Space`, since the base is an element here, and the dimension a number that a
// caller can hand on.
ghost use Rattle.std.specs.Prelude.{◌≡◌, ◌≤◌};
ghost use Rattle.linear.specs.Limits.{places};

use field::Element;
use linear::inner::elimination::PLACES;
use linear::inner::space::Space;

// The roots are the base combined by exclusive or with each choice of the directions, so many as the dimension, which stand first in their
// places.
#[derive(Clone, Copy, Debug, PartialEq, Eq)]
pub struct RootSpace {
    pub base: Element,
    pub dimension: u32,
    pub directions: [u32; PLACES],
    pub ghost few: { dimension ≤ places },
}

impl From<Space> for RootSpace {
    ghost from_gives = { λ s r. (r.base.0 ≡ s.base) × (r.dimension ≡ s.count) × (r.directions ≡ s.directions) };

    fn from(space: Space) -> RootSpace {
        let directions = space.directions;
        RootSpace {
            base: Element(space.base),
            dimension: space.count as u32,
            directions,
        }
    }
}
