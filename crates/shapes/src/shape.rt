// A shape: 1 to 16 cells in reach, strictly ascending, the first (0,0,0).
ghost use Rattle.std.specs.Prelude.{◌≡◌, false, is_some};
ghost use Rattle.ordered.specs.Items.{items_of};
ghost use Rattle.shapes.specs.Faults.{shape_fault};

use lattice::cell::Cell;
use ordered::array_list::ArrayList;

// Shapes with the same cells are equal values.
#[derive(Clone, Copy)]
pub struct Shape {
    pub(crate) cells: ArrayList<Cell, 16>,
    ghost sound: { is_some (shape_fault (items_of cells)) ≡ false },
}
