// A class of shapes, as it is listed.
ghost use Rattle.std.specs.Prelude.{◌≤◌};

use crate::shape::Shape;
use lattice::motion_set::MotionSet;

// A shape, the motions that leave it as it is, and how many different members it has: from 1 to 48.
#[derive(Clone, Copy)]
pub struct Entry {
    pub shape: Shape,
    pub stabiliser: MotionSet,
    pub orbit_size: u8,
    ghost some: { 1 ≤ orbit_size },
    ghost few: { orbit_size ≤ 48 },
}
