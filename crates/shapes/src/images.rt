// The members of a shape: its images under motions, in normal position.
ghost use Rattle.std.specs.Prelude.{◌≡◌, ◌<◌, ◌≤◌, map, length};
ghost use Rattle.lattice.specs.declared.cell.Cell.{Cell as CellValue};
ghost use Rattle.ordered.specs.Lookups.{inserted, sorted as in_order};
ghost use Rattle.lattice.specs.Cells.{Within, cell_less, minus};
ghost use Rattle.lattice.specs.Lattices.{image_under};
ghost use Rattle.std.specs.List.{AllByRecursion};
ghost use Rattle.shapes.specs.Classes.{moved};
ghost use Rattle.shapes.specs.Members.{placement_cells, member_under};
ghost use Rattle.shapes.specs.Positions.{shifted};
ghost use Rattle.shapes.specs.Shapes.{shape_cells};

use crate::placement::Placement;
use crate::shape::Shape;
use lattice::cell::Cell;
use lattice::lattice::Lattice;
use ordered::array_list::ArrayList;

impl Placement {
    pub fn cells(&self) -> &[Cell]
        ensures value { result.now ≡ placement_cells self.now }
        ensures few { length (placement_cells self.now) ≤ 16 }
    {
        self.cells.as_slice()
    }

    // One cell more at its place in the order, unless it is there.
    fn add(&mut self, x: Cell)
        requires { length (placement_cells self.old) < 16 }
        ensures { placement_cells self.new ≡ inserted cell_less x (placement_cells self.old) }
    {
        // There is room.
        let _ = self.cells.insert(x);
    }

    // The different cells of a list, ascending.
    pub(crate) fn sorted(cells: &[Cell]) -> Placement
        requires { length cells.now ≤ 16 }
        ensures { placement_cells result ≡ in_order cell_less cells.now }
    {
        sorted_images(cells, |x| x)
    }
}

// The different cells that `image` makes of the cells of a list, ascending.
fn sorted_images<F: Fn(Cell) -> Cell>(cells: &[Cell], image: F) -> Placement
    requires callable { F.IsAlwaysCallable image }
    requires few { length cells.now ≤ 16 }
    ensures { (f : CellValue → CellValue) → ((x y : CellValue) → F.post image x y → y ≡ f x) → placement_cells result ≡ in_order cell_less (map f cells.now) }
{
    let mut placement = Placement::default();
    for x in cells {
        placement.add(image(*x));
    }
    placement
}

// The images of a shape's cells under a motion, listed ascending.
fn images<L: Lattice>(lattice: &L, motion: u8, shape: &Shape) -> Placement
    ensures { placement_cells result ≡ in_order cell_less (map (image_under (L.motions lattice.now) motion) (shape_cells shape.now)) }
{
    sorted_images(shape.cells(), |x| lattice.image(motion, x))
}

// x − y
pub(crate) fn difference(x: Cell, y: Cell) -> Cell
    requires x_near { Within 45 x }
    requires y_near { Within 45 y }
    ensures { result ≡ minus x y }
{
    Cell {
        a: x.a - y.a,
        b: x.b - y.b,
        c: x.c - y.c,
    }
}

// The cells with the first of them taken away from each.
fn from_the_first(placement: &Placement) -> Placement
    requires { AllByRecursion (Within 45) (placement_cells placement.now) }
    ensures { placement_cells result ≡ shifted (placement_cells placement.now) }
{
    let mut cells = ArrayList::new();
    if let Some(first) = placement.cells().first() {
        for x in placement.cells() {
            cells.push(difference(*x, *first)).unwrap();
        }
    }
    Placement { cells }
}

// The member of a shape under a motion. Beyond the count of motions every image is (0,0,0), and so is the member.
pub fn member<L: Lattice>(lattice: &L, motion: u8, shape: &Shape) -> Placement
    ensures value { placement_cells result ≡ member_under (L.motions lattice.now) motion (shape_cells shape.now) }
    ensures image { motion < length (L.motions lattice.now) → placement_cells result ≡ moved (L.motions lattice.now) motion (shape_cells shape.now) }
{
    from_the_first(&images(lattice, motion, shape))
}
