// The walk of a shape, which gives its pick list.
ghost use Rattle.std.specs.Prelude.{◌≡◌, ◌≤◌, true, ◌↔◌, length, is_some};
ghost use Rattle.lattice.specs.Cells.{origin};
ghost use Rattle.shapes.specs.Connected.{Connected};
ghost use Rattle.shapes.specs.Positions.{neighbours};
ghost use Rattle.shapes.specs.Shapes.{shape_cells};
ghost use Rattle.walk.specs.CellsAround.{cells_around};
ghost use Rattle.walk.specs.PlaceLists.{directions_in, pick_numbers, picked};
ghost use Rattle.walk.specs.Walks.{walk as walked, pick_list as the_picks};

use crate::direction_list::DirectionList;
use crate::pick_list::PickList;
use crate::place_list::PlaceList;
use lattice::cell::Cell;
use lattice::lattice::Lattice;
use ordered::array_list::ArrayList;
use shapes::shape::Shape;

impl PickList {
    // The places picked, ascending.
    pub fn picks(&self) -> &[usize]
        ensures { result.now ≡ pick_numbers self.now }
    {
        self.picks.as_slice()
    }
}

// Takes the places in turn from 0, and picks those whose cells are wanted, until all are picked or no place is left.
fn walk(directions: &DirectionList, wanted: &[Cell]) -> PickList
    requires { length wanted.now ≤ 16 }
    ensures { pick_numbers result ≡ walked (cells_around (directions_in directions.now)) wanted.now }
{
    let mut places = PlaceList::new();
    let mut picks = ArrayList::new();
    let mut place = 0;
    // The places are not iterated: a pick puts more on their end.
    while picks.len() < wanted.len() && place < places.len() {
        let x = places.get(place);
        if wanted.contains(&x) {
            picks.push(place).unwrap();
            places.spread(directions, x);
        }
        place += 1;
    }
    PickList { picks }
}

// The pick list of a shape, which it has exactly if it is connected.
pub fn pick_list<L: Lattice>(lattice: &L, shape: &Shape) -> Option<PickList>
    ensures value { picked result ≡ the_picks (cells_around (L.directions lattice.now)) (shape_cells shape.now) }
    ensures connected { (is_some result ≡ true) ↔ Connected (neighbours (L.directions lattice.now)) origin (shape_cells shape.now) }
{
    let list = walk(&DirectionList::of(lattice), shape.cells());
    (list.picks.len() == shape.size()).then_some(list)
}
