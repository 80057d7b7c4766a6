// The interface of a lattice.
ghost use Rattle.std.specs.Prelude.{◌≡◌, ℕ, ◌<◌, Bool, List, length};
ghost use Rattle.lattice.specs.declared.cell.Cell.{Cell};
ghost use Rattle.lattice.specs.Matrices.{Matrix, image as carry};
ghost use Rattle.lattice.specs.Lattices.{motion as numbered, number_after, image_under, direction_at, in_one_sided, Rules};

use crate::cell::Cell;

// A lattice means a list of directions, a list of motions numbered from 0, and a one-sided set of motion numbers.
// Its questions change nothing; beyond a count or out of reach they answer (0,0,0), 0 or no.
pub trait Lattice {
    const NAME: &'static str;

    const DIRECTIONS: u8;

    const MOTIONS: u8;

    ghost letters: { Self → List ℕ };

    ghost directions: { Self → List Cell };

    ghost motions: { Self → List Matrix };

    ghost onesided: { Self → ℕ → Bool };

    // What each lattice must prove.
    ghost rules: { (s : Self) → Rules (letters s) (directions s) (motions s) (onesided s) };

    // Each lattice says its name and its counts itself, the built-in ones by their constants. The trait does not say them for all:
    // a lattice that holds data has counts of its own in each value, so no law may tie them to a constant.

    // The constant NAME.
    fn title(&self) -> &'static str
        ensures { result.now ≡ letters self.now };

    // The constant DIRECTIONS.
    fn direction_count(&self) -> u8
        ensures { result ≡ length (directions self.now) };

    // The constant MOTIONS.
    fn motion_count(&self) -> u8
        ensures { result ≡ length (motions self.now) };

    fn direction(&self, number: u8) -> Cell
        ensures { result ≡ direction_at (directions self.now) number };

    fn image(&self, motion: u8, cell: Cell) -> Cell
        ensures { result ≡ image_under (motions self.now) motion cell };

    // The number of "g after h", which does h first and then g.
    fn after(&self, g: u8, h: u8) -> u8
        ensures value { result ≡ number_after (motions self.now) g h }
        ensures in_turn { g < length (motions self.now) → h < length (motions self.now) → (x : Cell) → carry (numbered (motions self.now) result) x ≡ carry (numbered (motions self.now) g) (carry (numbered (motions self.now) h) x) };

    fn is_one_sided(&self, motion: u8) -> bool
        ensures { result ≡ in_one_sided (motions self.now) (onesided self.now) motion };
}
