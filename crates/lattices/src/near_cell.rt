// A cell in reach of a lattice.
ghost use Rattle.std.specs.Prelude.{◌≡◌, true, cond, Some, None, option_map};
ghost use Rattle.lattice.specs.Cells.{in_reach};

use lattice::cell::Cell;

#[derive(Clone, Copy)]
pub(crate) struct NearCell {
    pub(crate) cell: Cell,
    ghost near: { in_reach cell ≡ true },
}

impl NearCell {
    // The cell, if it is in reach.
    pub(crate) fn new(cell: Cell) -> Option<NearCell>
        ensures { option_map (λ x. x.cell) result ≡ cond (in_reach cell) (Some cell) None }
    {
        if cell.is_in_reach() {
            Some(NearCell { cell })
        } else {
            None
        }
    }
}
