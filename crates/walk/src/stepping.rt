// The steps of a search: a place is picked, the last pick is taken back, a whole pick list is found.
ghost use Rattle.std.specs.Prelude.{◌≡◌, ◌+◌, ◌<◌, ◌≤◌, length};
ghost use Rattle.walk.specs.PlaceLists.{place_cells};
ghost use Rattle.walk.specs.Trails.{ways, Sound, Started, Turned, Found, Sought};

use crate::direction_list::DirectionList;
use crate::place_list::PlaceList;
use crate::trail::Trail;
use lattice::cell::Cell;

// That a trail is sound is asked of each step, and is no ghost field of it: a step breaks it between its writes. A `Search` always has it.
impl Trail {
    // No pick is made, and place 0 is the next to try.
    pub(crate) fn new(directions: DirectionList, size: usize) -> Trail
        requires some { 0 < size }
        requires few { size ≤ 16 }
        ensures { Started directions size result }
    {
        Trail {
            directions,
            places: PlaceList::new(),
            picks: [0; 16],
            cells: [Cell::ORIGIN; 16],
            lengths: [0; 16],
            size,
            depth: 0,
            next: 0,
            shown: 0,
        }
    }

    // Picks the next place, and spreads its cell.
    fn pick(&mut self)
        requires sound { Sound (ways self.old) self.old }
        requires hidden { self.old.shown ≡ 0 }
        requires here { self.old.next < length (place_cells self.old.places) }
        requires more { self.old.depth + 1 < self.old.size }
        ensures { Turned (ways self.old) self.old self.new }
    {
        let at = self.depth;
        let place = self.next;
        let from = self.places.get(place);
        self.lengths[at] = self.places.len();
        self.picks[at] = place;
        self.cells[at] = from;
        self.places.spread(&self.directions, from);
        self.depth = at + 1;
        self.next = place + 1;
    }

    // Takes the last pick back, and goes on with the place behind it.
    fn go_back(&mut self)
        requires sound { Sound (ways self.old) self.old }
        requires hidden { self.old.shown ≡ 0 }
        requires some { 0 < self.old.depth }
        requires none { length (place_cells self.old.places) ≤ self.old.next }
        ensures { Turned (ways self.old) self.old self.new }
    {
        let last = self.depth - 1;
        self.places.cut_back(self.lengths[last]);
        self.next = self.picks[last] + 1;
        self.depth = last;
    }

    // Writes the last pick of a whole pick list: it needs no spreading, and no taking back.
    fn complete(&mut self)
        requires sound { Sound (ways self.old) self.old }
        requires here { self.old.next < length (place_cells self.old.places) }
        requires last { self.old.depth + 1 ≡ self.old.size }
        ensures { Found (ways self.old) self.old self.new }
    {
        let at = self.depth;
        let place = self.next;
        self.picks[at] = place;
        self.cells[at] = self.places.get(place);
        self.next = place + 1;
        self.shown = self.size;
    }

    // Goes on to the next pick list, or tells that there is none.
    pub(crate) fn seek(&mut self) -> bool
        requires { Sound (ways self.old) self.old }
        ensures { Sought (ways self.old) self.old self.new result }
    {
        self.shown = 0;
        loop {
            if self.next < self.places.len() {
                if self.depth + 1 == self.size {
                    self.complete();
                    return true;
                }
                self.pick();
            } else if self.depth == 0 {
                return false;
            } else {
                self.go_back();
            }
        }
    }
}
