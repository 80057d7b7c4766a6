// Beginning a search, going on in it, and what it shows.
ghost use Rattle.std.specs.Prelude.{◌≡◌};
ghost use Rattle.lattice.specs.Refusals.{answer};
ghost use Rattle.walk.specs.CellsAround.{cells_around};
ghost use Rattle.walk.specs.PlaceLists.{pick_numbers};
ghost use Rattle.walk.specs.Places.{cells_of};
ghost use Rattle.walk.specs.Searches.{left, shown, search_directions, search_size, begun, FreshIfMade, Advanced};

use crate::direction_list::DirectionList;
use crate::pick_list::PickList;
use crate::search::Search;
use crate::trail::Trail;
use lattice::cell::Cell;
use lattice::lattice::Lattice;
use lattice::refusal::Refusal;
use ordered::array_list::ArrayList;
use shapes::making::MOST_CELLS;

impl Search {
    // A search that has all pick lists of a size still to list.
    pub fn begin<L: Lattice>(lattice: &L, size: usize) -> Result<Search, Refusal>
        ensures value { answer left result ≡ begun (L.directions lattice.now) size }
        ensures fresh { FreshIfMade (L.directions lattice.now) size result }
    {
        if size == 0 || size > MOST_CELLS {
            return Err(Refusal::Size);
        }
        let trail = Trail::new(DirectionList::of(lattice), size);
        Ok(Search { trail })
    }

    // Goes on to the next pick list, or tells that there is none. No option: what is found is lent by `picks` and by `cells`.
    pub fn advance(&mut self) -> bool
        ensures { Advanced self.old self.new result }
    {
        self.trail.seek()
    }

    // The pick list found last; empty if there is none.
    pub fn picks(&self) -> &[usize]
        ensures { result.now ≡ shown self.now }
    {
        &self.trail.picks[0..self.trail.shown]
    }

    // The same as a value of its own.
    pub fn pick_list(&self) -> PickList
        ensures { pick_numbers result ≡ shown self.now }
    {
        let picks = ArrayList::from_slice(self.picks()).unwrap();
        PickList { picks }
    }

    // The cells that it picks, in its order.
    pub fn cells(&self) -> &[Cell]
        ensures { result.now ≡ cells_of (cells_around (search_directions self.now)) (shown self.now) }
    {
        &self.trail.cells[0..self.trail.shown]
    }

    // How many picks its lists have.
    pub fn size(&self) -> usize
        ensures { result ≡ search_size self.now }
    {
        self.trail.size
    }
}
