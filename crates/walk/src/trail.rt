// Where a search stands.
ghost use Rattle.std.specs.Prelude.{◌≡◌, ◌<◌, ◌≤◌, length};

use crate::direction_list::DirectionList;
use crate::place_list::PlaceList;
use lattice::cell::Cell;

// `depth` picks are made, with their cells and the length of the place list before each, and the next place to try.
// The first `shown` picks are the pick list found last, if there is one.
// The picks and the cells are no one array of steps: a search lends each as a slice.
// They are no lists with a room: a step back only lowers `depth`, where a list would write a blank.
#[derive(Drop)]
pub(crate) struct Trail {
    pub(crate) directions: DirectionList,
    pub(crate) places: PlaceList,
    pub(crate) picks: [usize; 16],
    pub(crate) cells: [Cell; 16],
    pub(crate) lengths: [usize; 16],
    pub(crate) size: usize,
    pub(crate) depth: usize,
    pub(crate) next: usize,
    pub(crate) shown: usize,
    ghost few: { size ≤ 16 },
    ghost deep: { depth < size },
    ghost whole: { shown ≤ size },
    ghost picks_space: { length picks ≡ 16 },
    ghost cells_space: { length cells ≡ 16 },
    ghost lengths_space: { length lengths ≡ 16 },
}
