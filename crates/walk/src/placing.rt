// Putting cells on a place list, and cutting it back.
ghost use Rattle.std.specs.Prelude.{◌≡◌, ◌+◌, ◌<◌, ◌≤◌, List, [], ◌∷◌, ◌++◌, length, take, slice_index_or};
ghost use Rattle.lattice.specs.declared.cell.Cell.{Cell};
ghost use Rattle.lattice.specs.Cells.{origin, Within};
ghost use Rattle.walk.specs.CellsAround.{cells_around};
ghost use Rattle.walk.specs.Neighbourhoods.{on};
ghost use Rattle.walk.specs.PlaceLists.{place_cells, directions_in};
ghost use Rattle.walk.specs.Places.{put as put_on, spread as spread_on};

use crate::direction_list::DirectionList;
use crate::place_list::PlaceList;
use lattice::cell::Cell;

impl PlaceList {
    // The place list of no picks.
    pub(crate) fn new() -> PlaceList
        ensures { place_cells result ≡ origin ∷ [] }
    {
        PlaceList {
            cells: [Cell::ORIGIN; 512],
            len: 1,
        }
    }

    pub(crate) fn len(&self) -> usize
        ensures { result ≡ length (place_cells self.now) }
    {
        self.len
    }

    pub(crate) fn get(&self, place: usize) -> Cell
        requires { place < length (place_cells self.now) }
        ensures { result ≡ slice_index_or (place_cells self.now) place origin }
    {
        self.cells[place]
    }

    pub(crate) fn contains(&self, x: Cell) -> bool
        ensures { (ds : List Cell) → result ≡ on (cells_around ds) (place_cells self.now) x }
    {
        self.cells[..self.len].contains(&x)
    }

    pub(crate) fn push(&mut self, x: Cell)
        requires { length (place_cells self.old) < 512 }
        ensures { place_cells self.new ≡ place_cells self.old ++ x ∷ [] }
    {
        self.cells[self.len] = x;
        self.len += 1;
    }

    // Cuts the list to a length that it had.
    pub(crate) fn cut_back(&mut self, len: usize)
        requires { len ≤ length (place_cells self.old) }
        ensures { place_cells self.new ≡ take len (place_cells self.old) }
    {
        self.len = len;
    }

    // Puts the cell on the end if it is greater than (0,0,0) and not on the list yet.
    pub(crate) fn put(&mut self, x: Cell)
        requires { length (place_cells self.old) < 512 }
        ensures { (ds : List Cell) → place_cells self.new ≡ put_on (cells_around ds) (place_cells self.old) x }
    {
        if Cell::ORIGIN < x && !self.contains(x) {
            self.push(x);
        }
    }

    // Puts the neighbours of a cell on the end, in the order of the directions.
    pub(crate) fn spread(&mut self, directions: &DirectionList, from: Cell)
        requires near { Within 100 from }
        requires room { length (place_cells self.old) + 26 ≤ 512 }
        ensures { place_cells self.new ≡ spread_on (cells_around (directions_in directions.now)) (place_cells self.old) from }
    {
        for step in directions.cells.as_slice() {
            self.put(from.checked_add(*step).unwrap());
        }
    }
}
