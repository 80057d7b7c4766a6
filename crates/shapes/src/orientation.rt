// A member of a shape with a motion that makes it.
ghost use Rattle.shapes.specs.Blanks.{no_orientation, default_orientation};

use crate::placement::Placement;
use ordered::filler::Filler;

#[derive(Clone, Copy, Default)]
pub struct Orientation {
    pub motion: u8,
    pub placement: Placement,
}

impl Filler for Orientation {
    ghost blank = { no_orientation };

    ghost by_default = { default_orientation };
}
