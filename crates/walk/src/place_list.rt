// The place list of a walk, with room for 512 cells and held by value, as the project asks for.
// Its slots have a length beside them, and are no list with a room: cutting back must not write.
ghost use Rattle.std.specs.Prelude.{◌≡◌, ◌≤◌, length};

use lattice::cell::Cell;

// Sixteen picks of cells with 26 neighbours each list at most 417 places.
#[derive(Drop)]
pub(crate) struct PlaceList {
    pub(crate) cells: [Cell; 512],
    pub(crate) len: usize,
    ghost few: { len ≤ 512 },
    ghost space: { length cells ≡ 512 },
}
