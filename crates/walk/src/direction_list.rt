// The directions of a lattice, copied once.
ghost use Rattle.std.specs.Prelude.{◌≡◌, ◌≤◌, true, length};
ghost use Rattle.std.specs.List.{list_all};
ghost use Rattle.ordered.specs.Items.{items_of};
ghost use Rattle.lattice.specs.Cells.{within};

use lattice::cell::Cell;
use ordered::array_list::ArrayList;

#[derive(Clone, Copy)]
pub(crate) struct DirectionList {
    pub(crate) cells: ArrayList<Cell, 26>,
    ghost few: { length (items_of cells) ≤ 26 },
    ghost short: { list_all (within 1) (items_of cells) ≡ true },
}
