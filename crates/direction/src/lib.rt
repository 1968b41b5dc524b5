// The walk's direction: three whole numbers, its named axes, its limits.
#![tactic(auto)]

ghost use Rattle.std.specs.Prelude.{◌≡◌};
ghost use Rattle.direction.specs.Direction.{direction, axes, is_steep, is_wrong};

// A direction of three whole numbers.
#[derive(Clone, Copy)]
pub struct Direction {
    pub x: i32,
    pub y: i32,
    pub z: i32,
}

impl Direction {
    pub const PLUS_X: Self = Self { x: 1, y: 0, z: 0 };

    pub const MINUS_X: Self = Self { x: -1, y: 0, z: 0 };

    pub const PLUS_Y: Self = Self { x: 0, y: 1, z: 0 };

    pub const MINUS_Y: Self = Self { x: 0, y: -1, z: 0 };

    pub const PLUS_Z: Self = Self { x: 0, y: 0, z: 1 };

    pub const MINUS_Z: Self = Self { x: 0, y: 0, z: -1 };

    pub fn new(x: i32, y: i32, z: i32) -> Self
        ensures { result ≡ direction x y z }
    {
        Self { x, y, z }
    }

    // The named axes.
    pub fn axes() -> [Self; 6]
        ensures { result ≡ axes }
    {
        [
            Self::PLUS_X,
            Self::MINUS_X,
            Self::PLUS_Y,
            Self::MINUS_Y,
            Self::PLUS_Z,
            Self::MINUS_Z,
        ]
    }

    // Number 14, DIRECTION: whether a part is outside its limits.
    pub fn is_wrong(self) -> bool
        ensures { result ≡ is_wrong self }
    {
        is_steep(self.x) || is_steep(self.y) || is_steep(self.z)
    }
}

// Whether a part of a direction is outside its limits.
#[tactic(auto, unfolding(crate::specs::Direction::is_steep))]
fn is_steep(part: i32) -> bool
    ensures { result ≡ is_steep part }
{
    points::exceeds(part, -32767, 32767)
}
