// Opening a lister, its nexts, and where a class is.
ghost use Rattle.std.specs.Prelude.{◌≡◌};
ghost use Rattle.shapes.specs.Shapes.{shape_cells};
ghost use Rattle.walk.specs.CellsAround.{cells_around};
ghost use Rattle.walk.specs.Lawful.{Lawful};
ghost use Rattle.walk.specs.Searches.{search_directions, search_size, shown as shown_picks};
ghost use Rattle.listing.specs.Listers.{stands_of, Kept, OpenedBy};
ghost use Rattle.listing.specs.Made.{shape_of};
ghost use Rattle.std.proofs.Common.{rules};

use crate::lister::Lister;
use crate::listings::Listing;
use crate::whereabouts::Whereabouts;
use lattice::kinds::motions_of_kind;
use lattice::lattice::Lattice;
use lattice::refusal::Refusal;
use ordered::compare::compare;
use shapes::entry::Entry;
use shapes::least::is_least;
use shapes::representative::least_member;
use shapes::shape::Shape;
use shapes::symmetry::{orbit_size, stabiliser};
use sources::source::Source;
use walk::search::Search;
use walk::walking::pick_list;

// The shape that the pick list found last picks.
fn shown_shape(search: &Search) -> Shape
    requires { Lawful (cells_around (search_directions search.now)) (search_size search.now) (shown_picks search.now) }
    ensures { shape_cells result ≡ shape_of (search_directions search.now) (shown_picks search.now) }
{
    Shape::arranged(search.cells()).unwrap()
}

impl<L: Lattice> Source for Lister<L> {
    ghost stands = { stands_of L.Lattice.motions };

    ghost kept = { Kept L.Lattice.motions };

    fn next(&mut self, out: &mut Entry) -> Result<(), Refusal> {
        while self.search.advance() {
            let shape = shown_shape(&self.search);
            if is_least(&self.lattice, &self.set, &shape) {
                *out = Entry {
                    shape,
                    stabiliser: stabiliser(&self.lattice, &self.set, &shape),
                    orbit_size: orbit_size(&self.lattice, &self.set, &shape),
                };
                self.last = self.search.pick_list();
                return Ok(());
            }
        }
        Err(Refusal::Through)
    }
}

impl<L: Lattice + Drop> Listing<L> for Lister<L> {
    ghost opened = { OpenedBy L.Lattice.directions L.Lattice.motions };

    ghost steady = { Prim.search rules };

    fn open(lattice: L, size: usize, kind: u8) -> Result<Lister<L>, Refusal> {
        let search = Search::begin(&lattice, size)?;
        let set = motions_of_kind(&lattice, kind)?;
        let last = search.pick_list();
        Ok(Lister {
            lattice,
            set,
            search,
            last,
        })
    }

    // The class is to come if the pick list of its least member is greater than that of the last entry behind.
    fn whereabouts(&self, shape: &Shape) -> Whereabouts {
        if shape.size() != self.search.size() {
            return Whereabouts::Foreign;
        }
        let Some(least) = least_member(&self.lattice, &self.set, shape) else {
            return Whereabouts::Foreign;
        };
        let Some(list) = pick_list(&self.lattice, &least) else {
            return Whereabouts::Foreign;
        };
        if compare(self.last.picks(), list.picks()).is_lt() {
            Whereabouts::ToCome
        } else {
            Whereabouts::Given
        }
    }
}
