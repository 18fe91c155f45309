//! Direction vectors that allocate no memory.

ghost use Rattle.std.specs.Prelude.{◌≡◌, ◌-◌, ◌<◌, ◌≤◌, length, take, [], ◌∷◌, ◌++◌};
ghost use Rattle.ped_views.specs.Excluded.{direction_at};

use ped_views::Direction;
use std::marker::Model;

/// A direction vector over at most six common loops, the outermost loop first (Allen and Kennedy, section
/// 2.2.4). Contracts see the list of its directions.
#[derive(Clone, Copy, PartialEq, Eq)]
pub struct Vector {
    len: u8,
    directions: [Direction; 6],
}

impl Model for Vector {
    ghost use Rattle.std.specs.Prelude.{List, take};
    ghost use Rattle.ped_views.specs.declared.directions.Direction.{Direction};

    ghost Value = { List Direction };

    ghost use Rattle.ped_verdict.specs.Kept.{IsVectorInside, inside, inside_back};

    ghost view = { λ a. take a.len a.directions };

    ghost invariant = { IsVectorInside };

    ghost inverse = { inside };

    ghost inverse_ok = { inside_back };
}

impl Vector {
    /// The vector over no loop.
    pub(crate) fn empty() -> Vector
        ensures { result ≡ [] }
    {
        Vector {
            len: 0,
            directions: [Direction::Same; 6],
        }
    }

    /// This vector with a direction of one more loop, which is in all the others.
    pub(crate) fn with(self, direction: Direction) -> Vector
        requires { length self < 6 }
        ensures { result ≡ self ++ direction ∷ [] }
    {
        let mut directions = self.directions;
        directions[self.len as usize] = direction;
        Vector {
            len: self.len + 1,
            directions,
        }
    }

    /// This vector without its last loop.
    pub(crate) fn without_last(self) -> Vector
        requires { 0 < length self }
        ensures { result ≡ take (length self - 1) self }
    {
        let len = self.len - 1;
        let mut directions = self.directions;
        directions[len as usize] = Direction::Same;
        Vector { len, directions }
    }

    /// The direction of the last loop.
    pub(crate) fn last(&self) -> Direction
        requires { 0 < length self.now }
        ensures { result ≡ direction_at self.now (length self.now - 1) }
    {
        self.directions[self.len as usize - 1]
    }

    /// How many loops the vector is over.
    pub(crate) fn len(&self) -> usize
        ensures { result ≡ length self.now }
    {
        self.len as usize
    }

    /// The directions, the outermost loop first.
    pub fn directions(&self) -> &[Direction]
        ensures value { result.now ≡ self.now }
        ensures short { length result.now ≤ 6 }
    {
        &self.directions[..self.len as usize]
    }
}
