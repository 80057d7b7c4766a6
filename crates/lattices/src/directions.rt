// Directions by number.
ghost use Rattle.std.specs.Prelude.{◌≡◌};
ghost use Rattle.lattice.specs.Lattices.{direction_at};

use lattice::cell::Cell;

// The direction with this number; (0,0,0) beyond the count.
pub(crate) fn direction(directions: &[Cell], number: u8) -> Cell
    ensures { result ≡ direction_at directions.now number }
{
    directions
        .get(number as usize)
        .copied()
        .unwrap_or(Cell::ORIGIN)
}
